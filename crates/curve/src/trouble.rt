// What can go wrong, and how it is said.
ghost use Rattle.std.specs.Prelude.{Some};
ghost use Rattle.curve.specs.Sentences.{slip_sentence};

use channel::PhasesOnly;
use plan::ChainFault;
use std::alloc::AllocError;
use std::{fmt, io};
use thiserror::Error;

// What is wrong with the arguments.
#[derive(Clone, Copy, Debug)]
pub enum Slip {
    Word,
    Count,
    Number(&'static str),
    Nothing,
}

// By a match: a derive's sentences are not promised.
impl fmt::Display for Slip {
    ghost output = { λ slip. Some (slip_sentence slip) };

    fn fmt<W: fmt::Write>(&self, f: &mut fmt::Formatter<W>) -> fmt::Result {
        match self {
            Slip::Word => f.write_str("there is no such word or option"),
            Slip::Count => f.write_str("a row takes four numbers"),
            Slip::Number(name) => write!(f, "the {name} is not a whole number, or too great"),
            Slip::Nothing => f.write_str("there is no ratio or no block to run"),
        }
    }
}

#[derive(Debug, Drop, Error)]
pub enum Trouble {
    #[error("{0}\n{usage}", usage = USAGE)]
    Arguments(#[from] Slip),
    #[error(transparent)]
    Chain(#[from] ChainFault),
    #[error(transparent)]
    Phases(#[from] PhasesOnly),
    #[error(transparent)]
    Outside(#[from] io::Error),
    #[error("{fault}", fault = ChainFault::OutOfMemory)]
    Memory(#[from(alloc)] AllocError),
}

const USAGE: &'static str =
    "usage: curve [ROW] [--from=DECIBELS] [--to=DECIBELS] [--blocks=COUNT] [--seed=NUMBER] [--svg]
       curve send [ROW]
       curve rows
       curve time
ROW is four numbers: bandwidth in kHz, waveform, interleaver, constraint length";
