// A block as a line of text.
ghost use Rattle.std.specs.Prelude.{◌≡◌, cond, [], ◌∷◌, ◌==◌, Some};
ghost use Rattle.bits_text.specs.Texts.{digit, block_line};

use std::fmt;

// A block's bits, each 0 or 1.
#[derive(Clone, Copy)]
pub struct BlockText<'a>(pub &'a [u8]);

// The digit of a bit.
fn digit(bit: u8) -> &'static str
    ensures { result.now ≡ digit bit ∷ [] }
{
    if bit == 0 { "0" } else { "1" }
}

// A digit for each bit, and a line feed. A byte that is no bit is written as 1.
impl fmt::Display for BlockText<'_> {
    ghost output = { λ block. Some (block_line block.0.now) };

    fn fmt<W: fmt::Write>(&self, f: &mut fmt::Formatter<W>) -> fmt::Result {
        for &bit in self.0 {
            f.write_str(digit(bit))?;
        }
        f.write_str("\n")
    }
}
