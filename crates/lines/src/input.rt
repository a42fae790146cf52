// A line of input as it comes in, byte by byte.
ghost use Rattle.std.specs.Prelude.{◌≡◌, ℕ, ◌≤◌, true, false, List, [], ◌∷◌, ◌++◌, is_ok, vec_len, ◌==◌};
ghost use Rattle.lines.specs.Inputs.{kept_of};
ghost use Rattle.lines.specs.Readings.{LineReading};

use crate::command::Command;
use crate::fault::LineFault;
use crate::reading::parse;
use crate::room::LineRoom;
use std::alloc::{AllocError, Global};

// One more byte than a command's line may have.
const KEPT: usize = 2081;

// The first bytes of a line, enough to see whether it is too long. Clauses name the field, since a view could be no more than it.
#[derive(Drop)]
pub struct Line {
    kept: Vec<u8>,
}

impl Line {
    // A line of which no byte has come.
    pub fn new(heap: Global) -> Line
        ensures { result.kept.items ≡ [] }
    {
        Line {
            kept: Vec::new(heap),
        }
    }

    // One byte more.
    pub fn push(&mut self, byte: u8) -> Result<(), AllocError>
        ensures kept { is_ok result ≡ true → (line : List ℕ) → self.old.kept.items ≡ kept_of line → self.new.kept.items ≡ kept_of (line ++ byte ∷ []) }
        ensures refused { is_ok result ≡ false → self.new.kept.items ≡ self.old.kept.items }
    {
        if self.kept.len() < KEPT {
            self.kept.push(byte)?;
        }
        Ok(())
    }

    // Whether no byte has come.
    pub fn is_empty(&self) -> bool
        ensures { result ≡ (vec_len self.now.kept == 0) }
    {
        self.kept.is_empty()
    }

    // What is kept of the line.
    pub fn bytes(&self) -> &[u8]
        ensures { result.now ≡ self.now.kept.items }
    {
        self.kept.as_slice()
    }

    // Makes room for the next line.
    pub fn clear(&mut self)
        ensures { self.new.kept.items ≡ [] }
    {
        self.kept.clear();
    }

    // The command whose line has come, read as from the whole line.
    pub fn command(&self, room: LineRoom) -> Result<Command, LineFault>
        ensures { (line : List ℕ) → self.now.kept.items ≡ kept_of line → LineReading line result }
    {
        parse(room, self.kept.as_slice())
    }
}
