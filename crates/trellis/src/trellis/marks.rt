// Marks in a lent memory: one bit for each time and state, eight states to a byte.
ghost use Rattle.std.specs.Prelude.{◌≡◌, ℕ, ◌/◌, ◌^◌, ◌<◌, ◌&&◌, length, set, if◌then◌else◌, nat_lt, slice_index, slice_set};
ghost use Rattle.trellis.specs.Marks.{lit, mark_place, marked, with_eight};

use crate::place::put_at;
use crate::trellis::Trellis;

impl Trellis {
    // Sets the marks of a time and the eight states from 8 * group on, the first in the byte's lowest bit.
    // Nothing changes where the trellis has no such time or states, or the memory no such place.
    pub fn put_eight(self, marks: &mut [u8], t: usize, group: usize, eight: u8)
        ensures after { marks.new ≡ (if nat_lt t self.size && nat_lt group (2 ^ self.memory / 8) then slice_set marks.old (mark_place self.memory t group) eight else marks.old) }
        ensures marks { t < self.size → group < 2 ^ self.memory / 8 → mark_place self.memory t group < length marks.old → (i s : ℕ) → s < 2 ^ self.memory → marked self.memory marks.new i s ≡ with_eight t group eight (marked self.memory marks.old) i s }
    {
        if t < self.size && group < self.row {
            put_at(marks, t * self.row + group, eight);
        }
    }

    // The mark of a time and a state; none is set past the end of the memory.
    pub(crate) fn is_marked(self, marks: &[u8], t: usize, state: usize) -> bool
        requires { t < self.size }
        ensures { result ≡ marked self.memory marks.now t state }
    {
        let byte = marks.get(t * self.row + state / 8).copied().unwrap_or(0);
        is_lit(byte, state % 8)
    }
}

fn is_lit(byte: u8, i: usize) -> bool
    requires { i < 8 }
    ensures { result ≡ lit byte i }
{
    (byte >> i) % 2 == 1
}
