// An answer as text.
ghost use Rattle.std.specs.Prelude.{◌≡◌, ◌≤◌, ◌++◌, Some, length, IfOk, string_bytes};
ghost use Rattle.lines.specs.Answers.{bits_number, bits_packed, answer_text};
ghost use Rattle.lines.specs.Hex.{hex, big_endian};

use crate::answer::Answer;
use crate::hex::{Hex, write_byte};
use std::alloc::{AllocError, Global};
use std::fmt;

// A block's bits, eight a byte.
#[derive(Clone, Copy)]
struct Packed<'a>(&'a [u8]);

impl fmt::Display for Packed<'_> {
    ghost output = { λ p. Some (hex (bits_packed p.0.now)) };

    fn fmt<W: fmt::Write>(&self, f: &mut fmt::Formatter<W>) -> fmt::Result {
        for bits in self.0.chunks(8) {
            write_byte(octet(bits), f)?;
        }
        Ok(())
    }
}

// The byte that at most eight bits write, the first highest. Where there are fewer, zeros follow.
fn octet(bits: &[u8]) -> u8
    requires { length bits.now ≤ 8 }
    ensures { result ≡ bits_number bits.now 0 8 }
{
    let mut number = 0;
    for (i, bit) in bits.iter().enumerate() {
        if *bit == 1 {
            number += 0x80 >> i;
        }
    }
    number
}

// A score in eight bytes: an answer is defined by its bytes, and so are its digits.
fn score_bytes(score: u64) -> [u8; 8]
    ensures { result ≡ big_endian 8 score }
{
    score.to_be_bytes()
}

// A refusal's number in one byte, and its line's in two.
fn refusal_bytes(number: u8, line: u16) -> [u8; 3]
    ensures { result ≡ big_endian 1 number ++ big_endian 2 line }
{
    let [high, low] = line.to_be_bytes();
    [number, high, low]
}

// A letter, and then digits up to the line feed.
impl fmt::Display for Answer {
    ghost output = { λ answer. Some (answer_text answer) };

    fn fmt<W: fmt::Write>(&self, f: &mut fmt::Formatter<W>) -> fmt::Result {
        match self {
            Answer::Accepted => f.write_str("A\n"),
            Answer::Shown { score, block } => {
                let score = score_bytes(*score);
                let score = Hex(&score);
                let block = Packed(block.as_slice());
                write!(f, "L{score}{block}\n")
            }
            Answer::Refused { number, line } => {
                let bytes = refusal_bytes(*number, *line);
                let bytes = Hex(&bytes);
                write!(f, "R{bytes}\n")
            }
        }
    }
}

// An answer as a line of text.
pub fn answer_text(heap: Global, answer: &Answer) -> Result<String, AllocError>
    ensures { IfOk result (λ t. string_bytes t ≡ answer_text answer.now) }
{
    format!(in heap; "{answer}")
}
