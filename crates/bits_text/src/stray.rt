// What stands in a text of bits and is no bit.
ghost use Rattle.std.specs.Prelude.{Some};
ghost use Rattle.bits_text.specs.Strays.{stray_text};

use std::fmt;

#[derive(Clone, Copy, Debug, PartialEq, Eq)]
pub struct Stray {
    // counted from 1
    pub line: u64,
    pub byte: u8,
}

impl fmt::Display for Stray {
    ghost output = { λ stray. Some (stray_text stray) };

    fn fmt<W: fmt::Write>(&self, f: &mut fmt::Formatter<W>) -> fmt::Result {
        let Stray { line, byte } = *self;
        if byte.is_ascii_graphic() {
            let shown = char::from(byte);
            write!(f, "line {line}: '{shown}' is no bit")
        } else {
            write!(f, "line {line}: the byte {byte} is no bit")
        }
    }
}
