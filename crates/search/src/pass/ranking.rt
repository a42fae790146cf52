// Which pass comes next. Nothing but the number of passes hangs on it.
ghost use Rattle.std.specs.Prelude.{◌≡◌, ◌^◌, ◌<◌, ◌≤◌};

use crate::numbers::Numbers;
use crate::pass::Workspace;
use score::Kind;

impl<'p, 'a, 'm, 'c, K: Kind> Workspace<'p, 'a, 'm, 'c, K> {
    // How many of its bits the next pass over a number holds: all where no other number is left beside it.
    pub(crate) fn bits_to_hold(&self, numbers: &Numbers, number: usize) -> usize
        ensures { result ≤ self.now.pass.now.trellis.memory }
    {
        let all = self.pass.trellis.memory();
        let held = numbers.next.get(number).copied().unwrap_or(all).min(all);
        if self.is_alone(numbers, held, number) {
            all
        } else {
            held
        }
    }

    // Whether no other number with the same first bits may still win.
    fn is_alone(&self, numbers: &Numbers, held: usize, number: usize) -> bool {
        let trellis = self.pass.trellis;
        for other in 0..trellis.states() {
            if other != number && trellis.shares(held, number, other) && numbers.is_left(other) {
                return false;
            }
        }
        true
    }

    // Of the numbers that have their first bits from one, that with the best survivor in the last pass.
    pub(crate) fn best_end(&self, held: usize, number: usize) -> usize
        requires { number < 2 ^ self.now.pass.now.trellis.memory }
        ensures { result < 2 ^ self.now.pass.now.trellis.memory }
    {
        let trellis = self.pass.trellis;
        let mut end = number;
        for other in 0..trellis.states() {
            if trellis.shares(held, number, other) && self.is_better_end(other, end) {
                end = other;
            }
        }
        end
    }

    // Whether a state has a better survivor than another.
    fn is_better_end(&self, one: usize, other: usize) -> bool {
        !self
            .pass
            .kind
            .no_worse(self.survivor(other), self.survivor(one))
    }

    // Ranks the numbers that may still win by their survivors in the last pass.
    pub(crate) fn rank(&self, numbers: &mut Numbers)
        ensures { numbers.new.left ≡ numbers.old.left }
    {
        for number in 0..self.pass.trellis.states() {
            if numbers.is_left(number) && number < 256 {
                numbers.rank[number] = self.better_than(numbers, number);
            }
        }
    }

    // How many numbers that may still win have a better survivor than one.
    fn better_than(&self, numbers: &Numbers, number: usize) -> usize {
        let mut count = 0;
        for other in 0..self.pass.trellis.states() {
            if numbers.is_left(other) && self.is_better_end(other, number) {
                count += 1;
            }
        }
        count
    }
}
