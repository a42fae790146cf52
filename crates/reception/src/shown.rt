// What is written where a look has shown a block.
ghost use Rattle.std.specs.Prelude.{Some};
ghost use Rattle.reception.specs.Written.{shown_text};

use crate::written::ScoreText;
use entries::Bits;
use std::fmt;

// The score and the block of a look.
#[derive(Clone, Copy)]
pub struct Shown<'a> {
    pub score: ScoreText,
    pub block: &'a [u8],
}

impl fmt::Display for Shown<'_> {
    ghost output = { λ s. Some (shown_text s.score s.block.now) };

    fn fmt<W: fmt::Write>(&self, f: &mut fmt::Formatter<W>) -> fmt::Result {
        let score = self.score;
        let bits = Bits(self.block);
        write!(f, "# score {score}\n{bits}\n")
    }
}
