// What was asked where a line is refused.
ghost use Rattle.std.specs.Prelude.{◌≡◌, Some};
ghost use Rattle.entries.specs.Texts.{plan_question, chain_question, question};

use lines::LineFault;
use plan::{ChainFault, PlanFault};
use std::fmt;

// The question of a fault.
#[derive(Clone, Copy)]
pub struct Question(pub LineFault);

fn plan_question(fault: PlanFault) -> &'static str
    ensures { result.now ≡ plan_question fault }
{
    match fault {
        PlanFault::ConstraintLength => "Is the constraint length 7 or 9?",
        PlanFault::Period => "Is the period from 1 to 12, and has the send list 1 to 32 entries?",
        PlanFault::Entry => "Is every entry below twice the period?",
        PlanFault::BlockLength =>
            "Is the block length from 9 to 1,843,200, and a multiple of the period?",
        PlanFault::SentLength => "Is the sent length at most 2,211,840?",
        PlanFault::SymbolBits => "Are the bits of a symbol 1, 2, 3, 4, 5, 6 or 8?",
        PlanFault::FrameLength =>
            "Is the frame length from 1 to 4,096, and the sent length a multiple of bits of a symbol x frame length?",
        PlanFault::Increment =>
            "Is the increment from 1 to the sent length, sharing no divisor above 1 with it?",
    }
}

fn chain_question(fault: ChainFault) -> &'static str
    ensures { result.now ≡ chain_question fault }
{
    match fault {
        ChainFault::Plan(below) => plan_question(below),
        ChainFault::Row =>
            "Does the standard's table have this bandwidth, waveform and interleaver?",
        ChainFault::Scrambler =>
            "Is the scrambler's width 3, 4, 5, 6 or 8, and has a table 1 to 4,096 values, each below 2 to the power of that width?",
        ChainFault::Fit =>
            "Is the scrambler's width the needed one, and its reach at least the frame length?",
        ChainFault::Block => "Is the block as long as the plan says, each byte 0 or 1?",
        ChainFault::TooShort => "Is every given memory long enough?",
        ChainFault::Place => "Is the symbol place below N / q?",
        ChainFault::Index =>
            "Is the index below 8 (q up to 3) or 2 to the power q, and the weight at most 32,767?",
        ChainFault::Mapping => "Is the unscrambled symbol in the mapping for q?",
        ChainFault::Location => "Is the location below N, and the value from -32,767 to 32,767?",
        ChainFault::OutOfMemory => "Has the machine memory left?",
    }
}

impl Question {
    // Its text.
    pub fn text(self) -> &'static str
        ensures { result.now ≡ question self.0 }
    {
        match self.0 {
            LineFault::Chain(fault) => chain_question(fault),
            LineFault::Form =>
                "Has the line one of the forms that are read, in at most 2,080 characters?",
            LineFault::Order =>
                "Was a plan accepted before this table, and a table accepted since the last such plan before this call?",
            LineFault::Size =>
                "Are the block length at most 256 and the sent length at most 1,024?",
        }
    }
}

impl fmt::Display for Question {
    ghost output = { λ q. Some (question q.0) };

    fn fmt<W: fmt::Write>(&self, f: &mut fmt::Formatter<W>) -> fmt::Result {
        f.write_str(self.text())
    }
}
