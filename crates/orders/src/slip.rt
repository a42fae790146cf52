// What is wrong with the words of a command line.
ghost use Rattle.std.specs.Prelude.{◌≡◌, Some};
ghost use Rattle.orders.specs.Texts.{sentence, usage_text};

use std::fmt;

#[derive(Clone, Copy, Debug, PartialEq, Eq)]
pub enum Slip {
    Word,
    Count,
    Files,
    Number(&'static str),
    Setting,
    Score,
}

impl fmt::Display for Slip {
    ghost output = { λ slip. Some (sentence slip) };

    fn fmt<W: fmt::Write>(&self, f: &mut fmt::Formatter<W>) -> fmt::Result {
        match self {
            Slip::Word => f.write_str("the first word is none of rows, plan, send, receive, count"),
            Slip::Count => f.write_str(
                "a row takes four numbers: bandwidth, waveform, interleaver, constraint length",
            ),
            Slip::Files => f.write_str("count takes two files"),
            Slip::Number(name) => write!(f, "the {name} is not a whole number, or too great"),
            Slip::Setting => f.write_str("there is no such option here, or it lacks a word"),
            Slip::Score => f.write_str("the score is none of total, worst, count"),
        }
    }
}

// How the program is called.
pub fn usage() -> &'static str
    ensures { result.now ≡ usage_text }
{
    "usage: chain rows
       chain plan ROW
       chain send ROW [--random BLOCKS SEED] [--copy FILE] [--table FILE]
       chain receive ROW [--score total|worst|count] [--table FILE]
       chain count SENT SHOWN
ROW is four numbers: bandwidth in kHz, waveform, interleaver (0 to 3), constraint length (7 or 9)"
}
