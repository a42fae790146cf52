// What can go wrong, and how it is said.
ghost use Rattle.std.specs.Prelude.{◌≡◌};
ghost use Rattle.plan.specs.declared.fault.ChainFault.TheVariants.{OutOfMemory};
ghost use Rattle.laboratory.specs.Troubles.{trouble_text};
ghost use Rattle.laboratory.specs.declared.trouble.Trouble.TheVariants.{Chain, Outside};

use bits_text::Stray;
use plan::ChainFault;
use std::alloc::{AllocError, AllocFailed};
use std::{fmt, io};

#[derive(Debug, Drop)]
pub enum Trouble {
    // a question of the chain that is answered no
    Chain(ChainFault),
    // a text of bits, named here, has something else in it
    Bits { text: &'static str, stray: Stray },
    // the last block of a text lacks bits: how many it has, and how many a block has
    Unfinished { bits: usize, length: usize },
    // a line of a table has something else than values from 0 to 255
    Value { line: u64 },
    // a text has more blocks than 64 bits can count
    Endless,
    Outside(io::Error),
}

impl fmt::Display for Trouble {
    ghost output = { trouble_text };

    fn fmt<W: fmt::Write>(&self, f: &mut fmt::Formatter<W>) -> fmt::Result {
        match self {
            Trouble::Chain(fault) => {
                let number = u8::from(*fault);
                write!(f, "refused {number}: {fault}")
            }
            Trouble::Bits { text, stray } => write!(f, "{text}, {stray}"),
            Trouble::Unfinished { bits, length } => write!(
                f,
                "the last block has {bits} bits, and a block of this row has {length}"
            ),
            Trouble::Value { line } => write!(
                f,
                "the table, line {line}: something else than whole numbers up to 255"
            ),
            Trouble::Endless => f.write_str("a text has no end"),
            Trouble::Outside(error) => write!(f, "{error}"),
        }
    }
}

impl From<ChainFault> for Trouble {
    ghost from_gives = { λ fault r. r ≡ Chain fault };

    fn from(fault: ChainFault) -> Trouble {
        Trouble::Chain(fault)
    }
}

impl From<io::Error> for Trouble {
    ghost from_gives = { λ error r. r ≡ Outside error };

    fn from(error: io::Error) -> Trouble {
        Trouble::Outside(error)
    }
}

impl From<AllocError> for Trouble {
    ghost from_gives = { λ _ r. r ≡ Chain OutOfMemory };

    fn from(_e: AllocError) -> Trouble {
        Trouble::Chain(ChainFault::OutOfMemory)
    }
}

impl<T: Drop> From<AllocFailed<T>> for Trouble {
    ghost from_gives = { λ _ r. r ≡ Chain OutOfMemory };

    fn from(_e: AllocFailed<T>) -> Trouble {
        Trouble::Chain(ChainFault::OutOfMemory)
    }
}

impl std::error::Error for Trouble {}
