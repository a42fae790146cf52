// A text of bits, read a byte at a time.
ghost use Rattle.std.specs.Prelude.{◌≡◌, ℕ, ◌||◌, ◌==◌, false, cond, List, [], ◌∷◌, ◌++◌, OnOk};
ghost use Rattle.bits_text.specs.Texts.{is_space, mark, Says};
ghost use Rattle.bits_text.specs.Readings.{At, line_after, Taken};

use crate::stray::Stray;

// Where in a text the next byte stands. The bits are the caller's, so that a text of any length is read in the same memory.
#[derive(Clone, Copy, Debug, PartialEq, Eq)]
pub struct BitsReader {
    in_comment: bool,
    // counted from 1
    line: u64,
}

// Whether a byte is white space.
fn is_space(byte: u8) -> bool
    ensures { result ≡ is_space byte }
{
    matches!(byte, b' ' | 9..=13)
}

// Whether a byte is neither white space nor of a comment.
fn is_mark(in_comment: bool, byte: u8) -> bool
    ensures { mark in_comment byte ≡ cond result (byte ∷ []) [] }
{
    !(in_comment || byte == b'#' || is_space(byte))
}

fn is_digit(byte: u8) -> bool
    ensures { result ≡ (byte == 48 || byte == 49) }
{
    matches!(byte, b'0' | b'1')
}

impl BitsReader {
    // Before the first byte of a text.
    pub fn new() -> BitsReader
        ensures start { At result [] }
        ensures first { result.line ≡ 1 }
    {
        BitsReader {
            in_comment: false,
            line: 1,
        }
    }

    // Goes past a byte.
    fn pass(&mut self, byte: u8)
        ensures place { (text : List ℕ) → At self.old text → At self.new (text ++ byte ∷ []) }
        ensures line { self.new.line ≡ line_after self.old.line byte }
    {
        if byte == b'\n' {
            self.in_comment = false;
            self.line = self.line.saturating_add(1);
        } else {
            self.in_comment |= byte == b'#';
        }
    }

    // The next byte is read as the first of a line.
    pub fn begin_line(&mut self)
        ensures start { At self.new [] }
        ensures line { self.new.line ≡ self.old.line }
    {
        self.in_comment = false;
    }

    // Goes past a byte, and answers the bit that it is, if it is one.
    pub fn take(&mut self, byte: u8) -> Result<Option<u8>, Stray>
        ensures said { (text bits : List ℕ) → At self.old text → Says text bits → Taken self.old text bits byte self.new result }
        ensures line { OnOk result (self.new.line ≡ line_after self.old.line byte) }
    {
        if !is_mark(self.in_comment, byte) {
            self.pass(byte);
            return Ok(None);
        }
        if !is_digit(byte) {
            return Err(Stray {
                line: self.line,
                byte,
            });
        }
        self.pass(byte);
        Ok(Some(byte - b'0'))
    }
}
