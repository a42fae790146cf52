// The choice of the start number: by ranges of numbers, as far as they may still win.
ghost use Rattle.std.specs.Prelude.{◌≡◌, ℕ, ◌+◌, ◌*◌, ◌^◌, ◌<◌, ◌≤◌, true, replicate, if◌then◌else◌};
ghost use Rattle.trellis.specs.Bounds.{ahead};
ghost use Rattle.trellis.specs.Choice.{final, winner};
ghost use Rattle.search.specs.Choosing.{takes_lead, Knows};
ghost use Rattle.search.specs.Searching.{column};
ghost use Rattle.search.specs.Stepping.{scale_of, steps_of};

use crate::numbers::Numbers;
use crate::pass::Workspace;
use score::Kind;

impl<'p, 'a, 'm, 'c, K: Kind> Workspace<'p, 'a, 'm, 'c, K> {
    // The start number that wins.
    pub(crate) fn winner(&mut self) -> usize
        ensures pass { self.new.pass ≡ self.old.pass }
        ensures number { let p = self.old.pass.now in let m = p.trellis.memory in result ≡ winner (steps_of p) m p.trellis.size (2 ^ m) }
        ensures below { result < 2 ^ self.old.pass.now.trellis.memory }
        ensures trips { self.new.trips ≤ self.old.trips + 2 * 2 ^ self.old.pass.now.trellis.memory + 2 }
    {
        let mut numbers = Numbers::all();
        let (lead, score) = self.first_leader(&mut numbers);
        let (lead, score) = self.narrow(&mut numbers, lead, score);
        self.settle(&numbers, lead, score).0
    }

    // A pass over every number. Its best end leads: with the path that survived into it, where that comes round, else with one by a pass of its own.
    fn first_leader(&mut self, numbers: &mut Numbers) -> (usize, K::Score)
        requires { numbers.old.left ≡ replicate 256 true }
        ensures pass { self.new.pass ≡ self.old.pass }
        ensures knows { Knows self.old.pass.now result.0 result.1 numbers.new.left }
        ensures trips { self.new.trips ≤ self.old.trips + 2 }
    {
        self.sweep(0, 0);
        let end = self.best_end(0, 0);
        if self.comes_round(end) {
            let score = self.survivor(end);
            self.sort_out(numbers, end, score, 0, 0);
            (end, score)
        } else {
            self.sweep(self.pass.trellis.memory(), end);
            (end, self.survivor(end))
        }
    }

    // Passes over ever smaller ranges of the likeliest numbers, until no number is left that may win, or there were as many passes as numbers.
    fn narrow(&mut self, numbers: &mut Numbers, lead: usize, score: K::Score) -> (usize, K::Score)
        requires { Knows self.old.pass.now lead score numbers.old.left }
        ensures pass { self.new.pass ≡ self.old.pass }
        ensures knows { Knows self.old.pass.now result.0 result.1 numbers.new.left }
        ensures trips { self.new.trips ≤ self.old.trips + 2 ^ self.old.pass.now.trellis.memory }
    {
        let states = self.pass.trellis.states();
        let mut leader = (lead, score);
        for _ in 0..states {
            match numbers.likeliest(states) {
                Some(number) => leader = self.look_closer(numbers, leader.0, leader.1, number),
                None => break,
            }
        }
        leader
    }

    // A pass over the numbers closest to one. Its best end may lead from now on, where the path that survived into it comes round.
    fn look_closer(
        &mut self,
        numbers: &mut Numbers,
        lead: usize,
        score: K::Score,
        number: usize,
    ) -> (usize, K::Score)
        requires number { number < 2 ^ self.old.pass.now.trellis.memory }
        requires knows { Knows self.old.pass.now lead score numbers.old.left }
        ensures pass { self.new.pass ≡ self.old.pass }
        ensures knows { Knows self.old.pass.now result.0 result.1 numbers.new.left }
        ensures trips { self.new.trips ≤ self.old.trips + 1 }
    {
        let held = self.bits_to_hold(numbers, number);
        self.sweep(held, number);
        let (lead, score) = self.leader_after(lead, score, self.best_end(held, number));
        self.sort_out(numbers, lead, score, held, number);
        (lead, score)
    }

    // Who leads after a pass: a state into which a path survived that comes round is tried with its score.
    fn leader_after(&self, lead: usize, score: K::Score, end: usize) -> (usize, K::Score)
        ensures lead { result.0 ≡ (if takes_lead self.now.pass.now end lead score self.now.before.now.scores.now self.now.marks.now then end else lead) }
        ensures score { result.1 ≡ (if takes_lead self.now.pass.now end lead score self.now.before.now.scores.now self.now.marks.now then column (scale_of self.now.pass.now) self.now.before.now.scores.now end else score) }
    {
        if self.comes_round(end) {
            self.pass.challenge(lead, score, end, self.survivor(end))
        } else {
            (lead, score)
        }
    }

    // A pass for each number that may still win.
    fn settle(&mut self, numbers: &Numbers, lead: usize, score: K::Score) -> (usize, K::Score)
        requires { Knows self.old.pass.now lead score numbers.now.left }
        ensures pass { self.new.pass ≡ self.old.pass }
        ensures knows { Knows self.old.pass.now result.0 result.1 numbers.now.left }
        ensures settled { let p = self.old.pass.now in let st = steps_of p in (x : ℕ) → x < 2 ^ p.trellis.memory → ahead st.no_worse result.1 result.0 (final st p.trellis.memory p.trellis.size x) x ≡ true }
        ensures trips { self.new.trips ≤ self.old.trips + 2 ^ self.old.pass.now.trellis.memory }
    {
        let mut leader = (lead, score);
        for number in 0..self.pass.trellis.states() {
            if numbers.is_left(number) {
                leader = self.try_alone(leader.0, leader.1, number);
            }
        }
        leader
    }

    // A pass for one number, which leads from now on if its own score comes before the leader's.
    fn try_alone(&mut self, lead: usize, score: K::Score, number: usize) -> (usize, K::Score)
        requires { number < 2 ^ self.old.pass.now.trellis.memory }
        ensures pass { self.new.pass ≡ self.old.pass }
        ensures lead { let p = self.old.pass.now in let st = steps_of p in let s = final st p.trellis.memory p.trellis.size number in result.0 ≡ (if ahead st.no_worse score lead s number then lead else number) }
        ensures score { let p = self.old.pass.now in let st = steps_of p in let s = final st p.trellis.memory p.trellis.size number in result.1 ≡ (if ahead st.no_worse score lead s number then score else s) }
        ensures trips { self.new.trips ≤ self.old.trips + 1 }
    {
        self.sweep(self.pass.trellis.memory(), number);
        self.pass
            .challenge(lead, score, number, self.survivor(number))
    }
}
