// A line as it has come in, read as an entry.
ghost use Rattle.std.specs.Prelude.{◌≡◌, ℕ, List};
ghost use Rattle.entries.specs.Readings.{LineReading};
ghost use Rattle.lines.specs.Inputs.{kept_of};

use crate::entry::Entry;
use crate::reading::read_entry;
use lines::{Line, LineFault};

// What is kept of a line tells what the whole line says.
pub fn read_line(line: &Line) -> Result<Option<Entry>, LineFault>
    ensures { (whole : List ℕ) → line.now.kept.items ≡ kept_of whole → LineReading whole result }
{
    read_entry(line.bytes())
}
