// Why the program stops, and how that is said.
ghost use Rattle.std.specs.Prelude.{◌≡◌};
ghost use Rattle.laboratory.specs.declared.trouble.Trouble.TheVariants.{Chain, Outside};
ghost use Rattle.chain.specs.Texts.{stop_text};
ghost use Rattle.chain.specs.declared.stop.Stop.TheVariants.{Words as TheWords, Work as TheWork};

use entries::Question;
use laboratory::Trouble;
use lines::LineFault;
use orders::{Slip, usage};
use plan::ChainFault;
use std::{fmt, io};

#[derive(Debug, Drop)]
pub enum Stop<'a> {
    // the words give no order
    Words(Slip),
    // a file that cannot be read or written
    File { name: &'a str, error: io::Error },
    Work(Trouble),
}

// The usage follows where other words are wanted.
impl fmt::Display for Stop<'_> {
    ghost output = { λ stop. stop_text stop };

    fn fmt<W: fmt::Write>(&self, f: &mut fmt::Formatter<W>) -> fmt::Result {
        match self {
            Stop::Words(slip) => {
                let usage = usage();
                write!(f, "{slip}\n{usage}")
            }
            Stop::File { name, error } => {
                let usage = usage();
                write!(f, "{name}: {error}\n{usage}")
            }
            Stop::Work(Trouble::Chain(fault)) => {
                let number = u8::from(*fault);
                let question = Question(LineFault::from(*fault));
                write!(f, "refused {number}: {question}")
            }
            Stop::Work(trouble) => write!(f, "{trouble}"),
        }
    }
}

impl<'a> From<Slip> for Stop<'a> {
    ghost from_gives = { λ slip r. r ≡ TheWords slip };

    fn from(slip: Slip) -> Stop<'a> {
        Stop::Words(slip)
    }
}

impl<'a> From<Trouble> for Stop<'a> {
    ghost from_gives = { λ trouble r. r ≡ TheWork trouble };

    fn from(trouble: Trouble) -> Stop<'a> {
        Stop::Work(trouble)
    }
}

impl<'a> From<ChainFault> for Stop<'a> {
    ghost from_gives = { λ fault r. r ≡ TheWork (Chain fault) };

    fn from(fault: ChainFault) -> Stop<'a> {
        Stop::Work(Trouble::Chain(fault))
    }
}

impl<'a> From<io::Error> for Stop<'a> {
    ghost from_gives = { λ error r. r ≡ TheWork (Outside error) };

    fn from(error: io::Error) -> Stop<'a> {
        Stop::Work(Trouble::Outside(error))
    }
}

#[cfg(test)]
mod tests {
    use super::*;
    use std::test::Fail;

    #[test]
    fn stops_are_told(rt: HostRuntime) -> Result<(), Fail> {
        let refused = Stop::from(ChainFault::Row).to_string(rt.alloc())?;
        assert_eq!(rt;
            refused.as_str(),
            "refused 9: Does the standard's table have this bandwidth, waveform and interleaver?"
        );
        let words = Stop::from(Slip::Files).to_string(rt.alloc())?;
        assert!(rt; words.as_str().starts_with("count takes two files\n"));
        assert!(rt; words.as_str().ends_with(usage()));
        let error = io::Error::from(io::ErrorKind::NotFound);
        let file = Stop::File {
            name: "air.txt",
            error,
        };
        let file = file.to_string(rt.alloc())?;
        assert!(rt; file.as_str().starts_with("air.txt: "));
        Ok(())
    }
}
