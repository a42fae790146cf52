// The kinds of score by name, and a score of any kind.
ghost use Rattle.std.specs.Prelude.{Some};
ghost use Rattle.speed.specs.Measuring.{score_text};
ghost use Rattle.speed.specs.Tables.{judge_name};

use score::Tally;
use std::fmt;

#[derive(Clone, Copy)]
pub enum Judge {
    Total,
    Worst,
    CountFirst,
}

pub const JUDGES: [Judge; 3] = [Judge::Total, Judge::Worst, Judge::CountFirst];

impl fmt::Display for Judge {
    ghost output = { λ j. Some (judge_name j) };

    fn fmt<W: fmt::Write>(&self, f: &mut fmt::Formatter<W>) -> fmt::Result {
        f.pad(match self {
            Judge::Total => "Total",
            Judge::Worst => "Worst",
            Judge::CountFirst => "Count-first",
        })
    }
}

#[derive(Clone, Copy)]
pub enum Score {
    Total(u64),
    Worst(u16),
    CountFirst(Tally),
}

// Of Count-first the count and the total.
impl fmt::Display for Score {
    ghost output = { λ s. Some (score_text s) };

    fn fmt<W: fmt::Write>(&self, f: &mut fmt::Formatter<W>) -> fmt::Result {
        match *self {
            Score::Total(total) => write!(f, "{total}"),
            Score::Worst(worst) => write!(f, "{worst}"),
            Score::CountFirst(Tally::Counted(count, total)) => write!(f, "{count} of {total}"),
            Score::CountFirst(Tally::Full) => f.write_str("full"),
        }
    }
}
