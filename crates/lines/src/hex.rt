// Bytes as upper-case hexadecimal text, two digits a byte.
ghost use Rattle.std.specs.Prelude.{◌≡◌, ℕ, ◌*◌, ◌<◌, ◌≤◌, [], ◌∷◌, length, Some, MatchOption, vec_capacity, ◌≢◌};
ghost use Rattle.std.specs.Fmt.{WritesOnOk};
ghost use Rattle.lines.specs.Hex.{hex_digit, hex};
ghost use Rattle.lines.specs.Readings.{HexReading};

use crate::fault::LineFault;
use std::fmt;

// The number that a digit stands for. `char::to_digit` takes lower-case digits too.
fn digit_value(digit: u8) -> Option<u8>
    ensures { MatchOption result ((n : ℕ) → n < 16 → hex_digit n ≢ digit) (λ n. (n < 16) × (hex_digit n ≡ digit)) }
{
    match digit {
        b'0'..=b'9' => Some(digit - b'0'),
        b'A'..=b'F' => Some(digit - b'A' + 10),
        _ => None,
    }
}

// The byte that two digits stand for.
fn byte_value(high: u8, low: u8) -> Option<u8>
    ensures { MatchOption result ((b : ℕ) → b < 256 → hex (b ∷ []) ≢ high ∷ low ∷ []) (λ b. (b < 256) × (hex (b ∷ []) ≡ high ∷ low ∷ [])) }
{
    let upper = digit_value(high)?;
    let lower = digit_value(low)?;
    Some(16 * upper + lower)
}

// The bytes that a text of digits writes, in the room of an empty list.
pub(crate) fn read_hex(room: Vec<u8>, text: &[u8]) -> Result<Vec<u8>, LineFault>
    requires empty { room.items ≡ [] }
    requires fits { length text.now ≤ 2 * vec_capacity room }
    ensures { HexReading text.now result }
{
    let mut bytes = room;
    let mut rest = text;
    // by a slice pattern: what is left over at the end is an odd digit
    while let [high, low, more @ ..] = rest {
        let Some(byte) = byte_value(*high, *low) else {
            return Err(LineFault::Form);
        };
        let _ = bytes.push(byte);
        rest = more;
    }
    if rest.is_empty() {
        Ok(bytes)
    } else {
        Err(LineFault::Form)
    }
}

// The digit of a number below 16, as text.
fn digit(number: u8) -> &'static str
    requires { number < 16 }
    ensures { result.now ≡ hex_digit number ∷ [] }
{
    match number {
        0 => "0",
        1 => "1",
        2 => "2",
        3 => "3",
        4 => "4",
        5 => "5",
        6 => "6",
        7 => "7",
        8 => "8",
        9 => "9",
        10 => "A",
        11 => "B",
        12 => "C",
        13 => "D",
        14 => "E",
        _ => "F",
    }
}

// Writes the two digits of a byte, each by itself: a number with a width takes several times as long.
pub(crate) fn write_byte<W: fmt::Write>(byte: u8, f: &mut fmt::Formatter<W>) -> fmt::Result
    ensures { WritesOnOk W.write_str_gives f.old result (hex (byte ∷ [])) f.new }
{
    f.write_str(digit(byte / 16))?;
    f.write_str(digit(byte % 16))
}

// Bytes, as two digits each.
#[derive(Clone, Copy)]
pub(crate) struct Hex<'a>(pub(crate) &'a [u8]);

impl fmt::Display for Hex<'_> {
    ghost output = { λ h. Some (hex h.0.now) };

    fn fmt<W: fmt::Write>(&self, f: &mut fmt::Formatter<W>) -> fmt::Result {
        for &byte in self.0 {
            write_byte(byte, f)?;
        }
        Ok(())
    }
}
