// A step for every state: the new column, and a row of marks.
ghost use Rattle.std.specs.Prelude.{◌≡◌, ℕ, ◌+◌, ◌*◌, ◌/◌, ◌^◌, ◌<◌, ◌≤◌, length, ◌≢◌, slice_index_or};
ghost use Rattle.trellis.specs.Marks.{lit, marked};
ghost use Rattle.search.specs.Stepping.{scale_of, mark_of, next_of};

use crate::step::Step;
use score::Kind;
use trellis::Column;

impl<'p, 'a, K: Kind> Step<'p, 'a, K> {
    // Eight states: their scores go into the new column, their marks into a byte, the first in the lowest bit.
    // Here and in `run` clauses say that the columns are long enough: a step holds no column, and takes both as parameters.
    fn eight(&self, old: &Column<'_, K::Score>, new: &mut Column<'_, K::Score>, group: usize) -> u8
        requires states { 8 * group + 8 ≤ 2 ^ self.now.pass.now.trellis.memory }
        requires old_room { 2 ^ self.now.pass.now.trellis.memory ≤ length old.now.scores.now }
        requires new_room { 2 ^ self.now.pass.now.trellis.memory ≤ length new.old.scores.now }
        ensures marks { (i : ℕ) → i < 8 → lit result i ≡ mark_of self.now old.now.scores.now (8 * group + i) }
        ensures scores { (i : ℕ) → i < 8 → slice_index_or new.new.scores.now (8 * group + i) (scale_of self.now.pass.now).start ≡ next_of self.now old.now.scores.now (8 * group + i) }
        ensures before { (s : ℕ) → s < 8 * group → slice_index_or new.new.scores.now s (scale_of self.now.pass.now).start ≡ slice_index_or new.old.scores.now s (scale_of self.now.pass.now).start }
        ensures len { length new.new.scores.now ≡ length new.old.scores.now }
    {
        let zero = self.ways(old, group, false);
        let one = self.ways(old, group, true);
        let mut byte = 0;
        for i in (0..8).rev() {
            let (mark, score) = self.survivor(zero[i], one[i]);
            new.put(8 * group + i, score);
            byte = 2 * byte + u8::from(mark);
        }
        byte
    }

    // Every state: the scores of the new column, and the marks of time t.
    pub(crate) fn run(
        &self,
        old: &Column<'_, K::Score>,
        new: &mut Column<'_, K::Score>,
        marks: &mut [u8],
        t: usize,
    )
        requires time { t < self.now.pass.now.trellis.size }
        requires old_room { 2 ^ self.now.pass.now.trellis.memory ≤ length old.now.scores.now }
        requires new_room { 2 ^ self.now.pass.now.trellis.memory ≤ length new.old.scores.now }
        requires room { self.now.pass.now.trellis.size * 2 ^ self.now.pass.now.trellis.memory / 8 ≤ length marks.old }
        ensures scores { (s : ℕ) → s < 2 ^ self.now.pass.now.trellis.memory → slice_index_or new.new.scores.now s (scale_of self.now.pass.now).start ≡ next_of self.now old.now.scores.now s }
        ensures marks { (s : ℕ) → s < 2 ^ self.now.pass.now.trellis.memory → marked self.now.pass.now.trellis.memory marks.new t s ≡ mark_of self.now old.now.scores.now s }
        ensures others { (i s : ℕ) → (i ≢ t) → s < 2 ^ self.now.pass.now.trellis.memory → marked self.now.pass.now.trellis.memory marks.new i s ≡ marked self.now.pass.now.trellis.memory marks.old i s }
        ensures len { length new.new.scores.now ≡ length new.old.scores.now }
    {
        // by number: what `chunks_mut` lends is not known afterwards
        for group in 0..self.pass.trellis.states() / 8 {
            let byte = self.eight(old, new, group);
            self.pass.trellis.put_eight(marks, t, group, byte);
        }
    }
}
