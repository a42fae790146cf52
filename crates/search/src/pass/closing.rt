// What one pass tells of the start numbers.
ghost use Rattle.std.specs.Prelude.{◌≡◌, ◌^◌, ◌<◌, ◌==◌, false, if◌then◌else◌, slice_set};
ghost use Rattle.trellis.specs.Bounds.{ahead};
ghost use Rattle.trellis.specs.Choice.{origin};
ghost use Rattle.trellis.specs.Marks.{marked};
ghost use Rattle.search.specs.Choosing.{Closed};
ghost use Rattle.search.specs.Searching.{column};
ghost use Rattle.search.specs.Stepping.{scale_of};

use crate::numbers::Numbers;
use crate::pass::{Pass, Workspace};
use score::Kind;

impl<'a, K: Kind> Pass<'a, K> {
    // Whether a number with a score comes before another: its score is better, or an equal and the number no greater.
    pub(crate) fn comes_before(
        &self,
        number: usize,
        score: K::Score,
        other: usize,
        other_score: K::Score,
    ) -> bool
        ensures { result ≡ ahead (scale_of self.now).no_worse score number other_score other }
    {
        self.kind.no_worse(score, other_score)
            && (number <= other || !self.kind.no_worse(other_score, score))
    }

    // Who leads after a number was tried: the leader, if it comes before the number, else the number.
    pub(crate) fn challenge(
        &self,
        lead: usize,
        score: K::Score,
        number: usize,
        tried: K::Score,
    ) -> (usize, K::Score)
        ensures lead { result.0 ≡ (if ahead (scale_of self.now).no_worse score lead tried number then lead else number) }
        ensures score { result.1 ≡ (if ahead (scale_of self.now).no_worse score lead tried number then score else tried) }
    {
        if self.comes_before(lead, score, number, tried) {
            (lead, score)
        } else {
            (number, tried)
        }
    }
}

impl<'p, 'a, 'm, 'c, K: Kind> Workspace<'p, 'a, 'm, 'c, K> {
    // The score that survived into a state in the last pass.
    pub(crate) fn survivor(&self, state: usize) -> K::Score
        ensures { result ≡ column (scale_of self.now.pass.now) self.now.before.now.scores.now state }
    {
        self.before.at(state, self.pass.kind.start())
    }

    // Whether the path that survived into a state also starts there, so that it goes round.
    pub(crate) fn comes_round(&self, end: usize) -> bool
        ensures { let t = self.now.pass.now.trellis in result ≡ (origin t.memory (marked t.memory self.now.marks.now) t.size end == end) }
    {
        self.pass.trellis.origin(self.marks, end) == end
    }

    // What a pass tells of the numbers that have their first bits from one: which can't win, and after a pass over all, how likely the others are.
    pub(crate) fn sort_out(
        &self,
        numbers: &mut Numbers,
        lead: usize,
        score: K::Score,
        held: usize,
        number: usize,
    )
        ensures { Closed self.now.pass.now held number lead score self.now.before.now.scores.now numbers.old.left numbers.new.left }
    {
        self.close_behind(numbers, lead, score, held, number);
        if held == 0 {
            self.rank(numbers);
        }
    }

    // Those of them can't win whose survivors are behind the leader.
    fn close_behind(
        &self,
        numbers: &mut Numbers,
        lead: usize,
        score: K::Score,
        held: usize,
        number: usize,
    )
        ensures { Closed self.now.pass.now held number lead score self.now.before.now.scores.now numbers.old.left numbers.new.left }
    {
        let trellis = self.pass.trellis;
        for other in 0..trellis.states() {
            if trellis.shares(held, number, other) {
                self.close_if_behind(numbers, lead, score, other);
                numbers.hold(other, held.saturating_add(2));
            }
        }
    }

    // A number can't win whose survivor is behind the leader.
    fn close_if_behind(&self, numbers: &mut Numbers, lead: usize, score: K::Score, other: usize)
        ensures { numbers.new.left ≡ (if ahead (scale_of self.now.pass.now).no_worse score lead (column (scale_of self.now.pass.now) self.now.before.now.scores.now other) other then slice_set numbers.old.left other false else numbers.old.left) }
    {
        if self
            .pass
            .comes_before(lead, score, other, self.survivor(other))
        {
            numbers.close(other);
        }
    }
}
