// The fields of each kind of command, taken from the bytes after its first character.
ghost use Rattle.std.specs.Prelude.{◌≡◌, ◌<◌, ◌≤◌, [], ◌∷◌, ◌++◌, length, vec_capacity};
ghost use Rattle.std.specs.Int.{w16};
ghost use Rattle.std.proofs.Common.{of_z};
ghost use Rattle.lines.specs.Hex.{big_endian};
ghost use Rattle.lines.specs.Readings.{FieldReading, PartsReading};

use crate::command::Command;
use crate::fault::LineFault;
use plan::Parts;

// The number that two bytes write. Beside `signed`, since no trait has `from_be_bytes` for both types.
fn two(high: u8, low: u8) -> u16
    ensures { big_endian 2 result ≡ high ∷ low ∷ [] }
{
    u16::from_be_bytes([high, low])
}

// The number whose two's complement two bytes write.
fn signed(high: u8, low: u8) -> i16
    ensures value { big_endian 2 (of_z w16 result) ≡ high ∷ low ∷ [] }
    ensures small { of_z w16 result < 65536 }
{
    i16::from_be_bytes([high, low])
}

// The number that three bytes write.
fn three(high: u8, middle: u8, low: u8) -> usize
    ensures value { big_endian 3 result ≡ high ∷ middle ∷ low ∷ [] }
    ensures small { result < 16777216 }
{
    u32::from_be_bytes([0, high, middle, low]) as usize
}

pub(crate) fn read_hear(bytes: &[u8]) -> Result<Command, LineFault>
    ensures { FieldReading 72 bytes.now result }
{
    let [top, middle, bottom, index, high, low] = bytes else {
        return Err(LineFault::Form);
    };
    let place = three(*top, *middle, *bottom);
    let weight = two(*high, *low);
    Ok(Command::Hear {
        place,
        index: *index,
        weight,
    })
}

pub(crate) fn read_note(bytes: &[u8]) -> Result<Command, LineFault>
    ensures { FieldReading 86 bytes.now result }
{
    let [top, middle, bottom, high, low] = bytes else {
        return Err(LineFault::Form);
    };
    let location = three(*top, *middle, *bottom);
    let value = signed(*high, *low);
    Ok(Command::Note { location, value })
}

pub(crate) fn read_blank(bytes: &[u8]) -> Result<Command, LineFault>
    ensures { FieldReading 67 bytes.now result }
{
    let [top, middle, bottom] = bytes else {
        return Err(LineFault::Form);
    };
    let place = three(*top, *middle, *bottom);
    Ok(Command::Blank { place })
}

pub(crate) fn read_look(bytes: &[u8]) -> Result<Command, LineFault>
    ensures { FieldReading 76 bytes.now result }
{
    let [] = bytes else {
        return Err(LineFault::Form);
    };
    Ok(Command::Look)
}

// The parts that the bytes before the send list, the list, and the bytes after it write; the list in the room of an empty one.
fn read_parts(
    room: Vec<u8>,
    constraint: u8,
    period: u8,
    list: &[u8],
    last: &[u8],
) -> Result<Parts, LineFault>
    requires small { length list.now < 256 }
    requires empty { room.items ≡ [] }
    requires fits { 255 ≤ vec_capacity room }
    ensures { PartsReading constraint period list.now last.now result }
{
    let [b2, b1, b0, bits, f1, f0, i2, i1, i0] = last else {
        return Err(LineFault::Form);
    };
    let block_length = three(*b2, *b1, *b0);
    let frame_length = two(*f1, *f0);
    let increment = three(*i2, *i1, *i0);
    let mut send_list = room;
    let _ = send_list.extend_from_slice(list);
    Ok(Parts {
        constraint: usize::from(constraint),
        period: usize::from(period),
        send_list,
        block_length,
        symbol_bits: usize::from(*bits),
        frame_length: usize::from(frame_length),
        increment,
    })
}

pub(crate) fn read_plan(room: Vec<u8>, bytes: &[u8]) -> Result<Command, LineFault>
    requires empty { room.items ≡ [] }
    requires fits { 255 ≤ vec_capacity room }
    ensures { FieldReading 80 bytes.now result }
{
    let [constraint, period, entries, rest @ ..] = bytes else {
        return Err(LineFault::Form);
    };
    let entries = usize::from(*entries);
    if rest.len() < entries {
        return Err(LineFault::Form);
    }
    let (list, last) = rest.split_at(entries);
    let parts = read_parts(room, *constraint, *period, list, last)?;
    Ok(Command::Plan(parts))
}
