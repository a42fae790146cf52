// Why a line is refused: a fault of the chain, or one of the line's own.
ghost use Rattle.std.specs.Prelude.{◌≡◌};
ghost use Rattle.lines.specs.Faults.{line_number};
ghost use Rattle.lines.specs.declared.fault.LineFault.TheVariants.{Chain};
ghost use Rattle.plan.specs.declared.fault.ChainFault.TheVariants.{OutOfMemory};

use plan::ChainFault;
use std::alloc::{AllocError, AllocFailed};

#[derive(Clone, Copy)]
pub enum LineFault {
    Chain(ChainFault),
    // the line has not the form of a command
    Form,
    // the line came too early
    Order,
    // the plan is too large for the bench
    Size,
}

impl From<ChainFault> for LineFault {
    ghost from_gives = { λ f r. r ≡ Chain f };

    fn from(fault: ChainFault) -> LineFault {
        LineFault::Chain(fault)
    }
}

// Two impls by hand: a derive's `From` has no contract, and what `?` answers is part of what is proved.
impl From<AllocError> for LineFault {
    ghost from_gives = { λ _ r. r ≡ Chain OutOfMemory };

    fn from(_e: AllocError) -> LineFault {
        LineFault::Chain(ChainFault::OutOfMemory)
    }
}

impl<T: Drop> From<AllocFailed<T>> for LineFault {
    ghost from_gives = { λ _ r. r ≡ Chain OutOfMemory };

    fn from(_e: AllocFailed<T>) -> LineFault {
        LineFault::Chain(ChainFault::OutOfMemory)
    }
}

// A carried fault has its own number.
impl From<LineFault> for u8 {
    ghost from_gives = { λ fault number. number ≡ line_number fault };

    fn from(fault: LineFault) -> u8 {
        match fault {
            LineFault::Chain(below) => u8::from(below),
            LineFault::Form => 18,
            LineFault::Order => 19,
            LineFault::Size => 20,
        }
    }
}

impl LineFault {
    // The number that the answer shows.
    pub fn number(self) -> u8
        ensures { result ≡ line_number self }
    {
        u8::from(self)
    }
}
