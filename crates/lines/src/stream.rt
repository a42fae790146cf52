// The lines of an input, one in memory at a time.
ghost use Rattle.std.specs.Prelude.{◌≡◌, []};
ghost use Rattle.std.specs.Io.Iter.{bytes_remaining};
ghost use Rattle.lines.specs.Streams.{left, Filled, NextLine};

use crate::input::Line;
use std::alloc::Global;
use std::io;
use std::io::{Bytes, Read};

#[derive(Drop)]
pub struct Lines<R: Read> {
    bytes: Bytes<R>,
    // whether the input has ended
    ended: bool,
    // the line that was read last
    line: Line,
}

// Goes on with an empty line up to its line feed. False where the input ends before one.
fn fill<R: Read + Drop>(line: &mut Line, input: &mut Bytes<R>) -> io::Result<bool>
    requires { line.old.kept.items ≡ [] }
    ensures { Filled (bytes_remaining R.remaining input.old) (bytes_remaining R.remaining input.new) line.new.kept.items result }
{
    while let Some(byte) = input.next() {
        let byte = byte?;
        if byte == b'\n' {
            return Ok(true);
        }
        line.push(byte)?;
    }
    Ok(false)
}

impl<R: Read + Drop> Lines<R> {
    // The lines of what a reader gives, none of them read.
    pub fn new(heap: Global, input: R) -> Lines<R>
        ensures { left R.remaining result ≡ R.remaining input }
    {
        Lines {
            bytes: input.bytes(),
            ended: false,
            line: Line::new(heap),
        }
    }

    // Reads the next line, without its line feed. False where nothing follows the last line feed.
    pub fn advance(&mut self) -> io::Result<bool>
        ensures { NextLine (left R.remaining self.old) (left R.remaining self.new) self.new.line.kept.items result }
    {
        self.line.clear();
        if self.ended {
            return Ok(false);
        }
        if fill(&mut self.line, &mut self.bytes)? {
            return Ok(true);
        }
        self.ended = true;
        Ok(!self.line.is_empty())
    }

    // The line that was read last.
    pub fn line(&self) -> &Line
        ensures { result.now.kept.items ≡ self.now.line.kept.items }
    {
        &self.line
    }
}
