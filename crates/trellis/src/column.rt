// A column of the trellis: the score of each state at one time, in a lent memory.
ghost use Rattle.std.specs.Prelude.{◌≡◌, length, replicate, slice_index_or, slice_set};

use crate::place::put_at;

#[derive(Drop)]
pub struct Column<'a, S> {
    pub scores: &'a mut [S],
}

impl<'a, S: Copy> Column<'a, S> {
    // The score of a state, or a given one past the last state.
    pub fn at(&self, state: usize, past: S) -> S
        ensures { result ≡ slice_index_or self.now.scores.now state past }
    {
        self.scores.get(state).copied().unwrap_or(past)
    }

    // Sets the score of a state; past the last state nothing changes.
    pub fn put(&mut self, state: usize, score: S)
        ensures { self.new.scores.now ≡ slice_set self.old.scores.now state score }
    {
        put_at(self.scores, state, score);
    }

    // Sets the score of every state. The library's `fill` asks for a clone that cannot fail, which a `Copy` bound does not say.
    pub fn fill(&mut self, score: S)
        ensures { self.new.scores.now ≡ replicate (length self.old.scores.now) score }
    {
        for place in self.scores.iter_mut() {
            *place = score;
        }
    }
}
