// A table of values.
ghost use Rattle.std.specs.Prelude.{◌≡◌, true};
ghost use Rattle.scrambler.specs.Questions.{values_fit};

use crate::width::Width;

pub mod holding;

#[derive(Drop)]
pub struct Table {
    width: Width,
    values: Vec<u8>,
    ghost fits: { values_fit width.bits values.items ≡ true },
}
