// The four interleavers of a waveform, and the numbers that rows name them by.
ghost use Rattle.std.specs.Prelude.{Some};
ghost use Rattle.rows.specs.Interleavers.{name, Numbered};

use std::fmt;

// From the shortest to the longest.
#[derive(Clone, Copy, Debug, PartialEq, Eq)]
pub enum Interleaver {
    UltraShort,
    Short,
    Medium,
    Long,
}

// A number that no interleaver has.
#[derive(Clone, Copy, Debug, PartialEq, Eq)]
pub struct UnknownInterleaver(pub usize);

impl TryFrom<usize> for Interleaver {
    type Error = UnknownInterleaver;

    ghost try_from_gives = { Numbered };

    fn try_from(number: usize) -> Result<Interleaver, UnknownInterleaver> {
        match number {
            0 => Ok(Interleaver::UltraShort),
            1 => Ok(Interleaver::Short),
            2 => Ok(Interleaver::Medium),
            3 => Ok(Interleaver::Long),
            _ => Err(UnknownInterleaver(number)),
        }
    }
}

impl fmt::Display for Interleaver {
    ghost output = { λ interleaver. Some (name interleaver) };

    fn fmt<W: fmt::Write>(&self, f: &mut fmt::Formatter<W>) -> fmt::Result {
        f.write_str(match self {
            Interleaver::UltraShort => "ultra short",
            Interleaver::Short => "short",
            Interleaver::Medium => "medium",
            Interleaver::Long => "long",
        })
    }
}
