// What is heard of a symbol.
ghost use Rattle.std.specs.Prelude.{Some, codes};

use std::fmt;

// An on-air index, and how sure it is.
#[derive(Clone, Copy, Debug, PartialEq, Eq)]
pub struct Heard {
    pub index: u8,
    pub weight: u16,
}

// Symbols of more than three bits have other points than the eight phases.
#[derive(Clone, Copy, Debug, PartialEq, Eq)]
pub struct PhasesOnly;

// By hand, as the faults of a plan: the crate needs no other but the library.
impl fmt::Display for PhasesOnly {
    ghost output = { λ _. Some (codes "the simulator has the eight phases only: waveforms 1 to 7 and 13") };

    fn fmt<W: fmt::Write>(&self, f: &mut fmt::Formatter<W>) -> fmt::Result {
        f.write_str("the simulator has the eight phases only: waveforms 1 to 7 and 13")
    }
}
