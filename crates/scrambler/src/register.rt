// A register of nine bits.
ghost use Rattle.std.specs.Prelude.{◌≡◌, ◌*◌};
ghost use Rattle.scrambler.specs.Shifts.{state_after};

use crate::width::Width;

pub mod drawing;
pub mod laws;

#[derive(Drop)]
pub struct Register {
    width: Width,
    // the place whose value the register shows
    place: usize,
    state: u16,
    ghost stands: { state ≡ state_after (place * width.bits) },
}
