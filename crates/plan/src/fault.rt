// Why a call is refused: a case for each question, in the order in which the questions are asked.
ghost use Rattle.std.specs.Prelude.{◌≡◌, Some};
ghost use Rattle.plan.specs.Faults.{plan_number, chain_number};
ghost use Rattle.plan.specs.Sentences.{plan_sentence, chain_sentence};
ghost use Rattle.plan.specs.declared.fault.ChainFault.TheVariants.{Plan, OutOfMemory};

use std::alloc::{AllocError, AllocFailed};
use std::fmt;

// What is wrong with the parts of a plan, in the order of the questions.
#[derive(Clone, Copy, Debug, PartialEq, Eq)]
pub enum PlanFault {
    ConstraintLength,
    Period,
    Entry,
    BlockLength,
    SentLength,
    SymbolBits,
    FrameLength,
    Increment,
}

// What is wrong with a call of the chain. A plan's fault is carried as it is.
#[derive(Clone, Copy, Debug, PartialEq, Eq)]
pub enum ChainFault {
    Plan(PlanFault),
    Row,
    Scrambler,
    Fit,
    Block,
    TooShort,
    Place,
    Index,
    Mapping,
    Location,
    // the machine has no memory left; no question asks this
    OutOfMemory,
}

impl From<PlanFault> for ChainFault {
    ghost from_gives = { λ f r. r ≡ Plan f };

    fn from(fault: PlanFault) -> ChainFault {
        ChainFault::Plan(fault)
    }
}

// Two impls by hand: a derive's `From` has no contract, and what `?` answers is part of what is proved.
impl From<AllocError> for ChainFault {
    ghost from_gives = { λ _ r. r ≡ OutOfMemory };

    fn from(_e: AllocError) -> ChainFault {
        ChainFault::OutOfMemory
    }
}

impl<T: Drop> From<AllocFailed<T>> for ChainFault {
    ghost from_gives = { λ _ r. r ≡ OutOfMemory };

    fn from(_e: AllocFailed<T>) -> ChainFault {
        ChainFault::OutOfMemory
    }
}

// The number of the question that was answered no: they are counted from 1.
impl From<PlanFault> for u8 {
    ghost from_gives = { λ fault number. number ≡ plan_number fault };

    fn from(fault: PlanFault) -> u8 {
        fault as u8 + 1
    }
}

// A carried fault has its own number.
impl From<ChainFault> for u8 {
    ghost from_gives = { λ fault number. number ≡ chain_number fault };

    fn from(fault: ChainFault) -> u8 {
        match fault {
            ChainFault::Plan(below) => u8::from(below),
            ChainFault::Row => 9,
            ChainFault::Scrambler => 10,
            ChainFault::Fit => 11,
            ChainFault::Block => 12,
            ChainFault::TooShort => 13,
            ChainFault::Place => 14,
            ChainFault::Index => 15,
            ChainFault::Mapping => 16,
            ChainFault::Location => 17,
            ChainFault::OutOfMemory => 255,
        }
    }
}

// By a match, as plain as a derive's attributes: the chain needs no crate but the library.
impl fmt::Display for PlanFault {
    ghost output = { λ fault. Some (plan_sentence fault) };

    fn fmt<W: fmt::Write>(&self, f: &mut fmt::Formatter<W>) -> fmt::Result {
        f.write_str(match self {
            PlanFault::ConstraintLength => "the constraint length is neither 7 nor 9",
            PlanFault::Period =>
                "the period is not from 1 to 12, or the send list has not 1 to 32 entries",
            PlanFault::Entry => "an entry of the send list is not below twice the period",
            PlanFault::BlockLength =>
                "the block length is not from 9 to 1,843,200, or no multiple of the period",
            PlanFault::SentLength => "more than 2,211,840 bits would be sent",
            PlanFault::SymbolBits => "the bits of a symbol are none of 1, 2, 3, 4, 5, 6, 8",
            PlanFault::FrameLength =>
                "the frame length is not from 1 to 4,096, or the frames are not filled exactly",
            PlanFault::Increment =>
                "the increment is not from 1 to the sent length, or shares a divisor with it",
        })
    }
}

// By a match, as above.
impl fmt::Display for ChainFault {
    ghost output = { λ fault. Some (chain_sentence fault) };

    fn fmt<W: fmt::Write>(&self, f: &mut fmt::Formatter<W>) -> fmt::Result {
        match self {
            ChainFault::Plan(fault) => fault.fmt(f),
            ChainFault::Row => f.write_str("the standard has no such row"),
            ChainFault::Scrambler => f.write_str(
                "the scrambler's width is none of 3, 4, 5, 6, 8, or its values do not fit",
            ),
            ChainFault::Fit => f.write_str(
                "the scrambler has not the width that the plan needs, or is shorter than a frame",
            ),
            ChainFault::Block => f.write_str(
                "the block has not the plan's length, or a byte of it is neither 0 nor 1",
            ),
            ChainFault::TooShort => f.write_str("a given memory is too short"),
            ChainFault::Place => f.write_str("the symbol place is past the last symbol"),
            ChainFault::Index => f.write_str("the on-air index or the weight is too great"),
            ChainFault::Mapping => f.write_str("the unscrambled symbol stands for no bits"),
            ChainFault::Location => f.write_str(
                "the location is past the last one, or the value is out of range",
            ),
            ChainFault::OutOfMemory => f.write_str("out of memory"),
        }
    }
}
