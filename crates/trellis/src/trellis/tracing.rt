// The block that marks give, traced back from a state.
ghost use Rattle.std.specs.Prelude.{◌≡◌, ℕ, ◌<◌, ◌≤◌, length, slice_index};
ghost use Rattle.code.specs.Numbers.{digit};
ghost use Rattle.trellis.specs.Choice.{back, origin};
ghost use Rattle.trellis.specs.Marks.{marked, overwritten};
ghost use Rattle.trellis.specs.Survivors.{before};

use crate::place::put_at;
use crate::trellis::Trellis;

impl Trellis {
    // Writes the bits that the marks give, from the last step into the state `end` back to the first.
    // Bytes past the block keep their contents.
    pub fn trace_back(self, marks: &[u8], end: usize, block: &mut [u8])
        ensures after { block.new ≡ overwritten self.size (back self.memory (marked self.memory marks.now) self.size end) block.old }
        ensures bits { (i : ℕ) → i < self.size → i < length block.old → slice_index block.new i ≡ digit (back self.memory (marked self.memory marks.now) self.size end i) }
        ensures rest { (i : ℕ) → self.size ≤ i → slice_index block.new i ≡ slice_index block.old i }
    {
        let mut state = end;
        // by step, not over the rows or the block: a step that either lacks leads back all the same
        for t in (0..self.size).rev() {
            let bit = self.is_marked(marks, t, state);
            put_at(block, t, u8::from(bit));
            state = self.before(bit, state);
        }
    }

    // The state before the first step, on the path that the marks give into the state `end`.
    pub fn origin(self, marks: &[u8], end: usize) -> usize
        ensures { result ≡ origin self.memory (marked self.memory marks.now) self.size end }
    {
        let mut from = end;
        for t in (0..self.size).rev() {
            from = self.before(self.is_marked(marks, t, from), from);
        }
        from
    }

    // The state before the step into a state that shifts this bit out.
    pub fn before(self, bit: bool, state: usize) -> usize
        ensures { result ≡ before self.memory bit state }
    {
        if bit {
            4 * self.row + state / 2
        } else {
            state / 2
        }
    }
}
