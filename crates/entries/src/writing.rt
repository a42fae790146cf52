// What is written to a line.
ghost use Rattle.std.specs.Prelude.{◌≡◌, Some};
ghost use Rattle.entries.specs.Texts.{refusal_text, bits_text};

use crate::question::Question;
use lines::LineFault;
use std::fmt;

// The answer to a refused line.
#[derive(Clone, Copy)]
pub struct Refusal {
    pub fault: LineFault,
    pub line: u64,
}

impl fmt::Display for Refusal {
    ghost output = { λ r. Some (refusal_text r.fault r.line) };

    fn fmt<W: fmt::Write>(&self, f: &mut fmt::Formatter<W>) -> fmt::Result {
        let number = self.fault.number();
        let line = self.line;
        let question = Question(self.fault).text();
        write!(f, "# refused {number} line {line}: {question}\n")
    }
}

// A block's bits, as characters 0 and 1.
#[derive(Clone, Copy)]
pub struct Bits<'a>(pub &'a [u8]);

impl fmt::Display for Bits<'_> {
    ghost output = { λ b. Some (bits_text b.0.now) };

    fn fmt<W: fmt::Write>(&self, f: &mut fmt::Formatter<W>) -> fmt::Result {
        for bit in self.0 {
            f.write_str(if *bit == 1 { "1" } else { "0" })?;
        }
        Ok(())
    }
}
