// A line of the bench program, read as a command.
ghost use Rattle.std.specs.Prelude.{◌≡◌, ◌≤◌, [], vec_capacity};
ghost use Rattle.lines.specs.Hex.{Bytes};
ghost use Rattle.lines.specs.Readings.{FieldReading, LineReading};

use crate::command::Command;
use crate::fault::LineFault;
use crate::fields::*;
use crate::hex::read_hex;
use crate::room::LineRoom;

// The most characters that a line may have.
const LONGEST: usize = 2080;

// The command of this kind with these bytes as its fields. The kind is a line's first character, taken by a match on
// characters: a form that the project prescribes.
fn read_command(kind: u8, bytes: Vec<u8>, list: Vec<u8>) -> Result<Command, LineFault>
    requires typed { Bytes bytes.items }
    requires empty { list.items ≡ [] }
    requires fits { 255 ≤ vec_capacity list }
    ensures { FieldReading kind bytes.items result }
{
    match char::from(kind) {
        'P' => read_plan(list, bytes.as_slice()),
        'S' => Ok(Command::Table(bytes)),
        'H' => read_hear(bytes.as_slice()),
        'V' => read_note(bytes.as_slice()),
        'C' => read_blank(bytes.as_slice()),
        'L' => read_look(bytes.as_slice()),
        _ => Err(LineFault::Form),
    }
}

// The command whose line this is.
pub fn parse(room: LineRoom, line: &[u8]) -> Result<Command, LineFault>
    ensures { LineReading line.now result }
{
    if line.len() > LONGEST {
        return Err(LineFault::Form);
    }
    let [kind, rest @ ..] = line else {
        return Err(LineFault::Form);
    };
    let bytes = read_hex(room.bytes, rest)?;
    read_command(*kind, bytes, room.list)
}
