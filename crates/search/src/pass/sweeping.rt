// How a pass goes round.
ghost use Rattle.std.specs.Prelude.{◌≡◌, ℕ, ◌+◌, ◌^◌, ◌<◌, ◌≤◌, min, slice_index_or};
ghost use Rattle.trellis.specs.Marks.{marked};
ghost use Rattle.trellis.specs.Survivors.{prefix, survivor, mark};
ghost use Rattle.search.specs.Stepping.{scale_of, steps_of};

use crate::pass::Workspace;
use crate::step::Step;
use score::{Kind, gather};

impl<'p, 'a, 'm, 'c, K: Kind> Workspace<'p, 'a, 'm, 'c, K> {
    // The survivors of the pass that starts with the first bits of a number, in the column before a step, and all marks.
    pub(crate) fn sweep(&mut self, held: usize, number: usize)
        requires { held ≤ self.old.pass.now.trellis.memory }
        ensures pass { self.new.pass ≡ self.old.pass }
        ensures trips { self.new.trips ≡ min (self.old.trips + 1) 18446744073709551615 }
        ensures scores { let p = self.old.pass.now in let m = p.trellis.memory in (s : ℕ) → s < 2 ^ m → slice_index_or self.new.before.now.scores.now s (scale_of p).start ≡ survivor (steps_of p) m (prefix m held number) p.trellis.size s }
        ensures marks { let p = self.old.pass.now in let m = p.trellis.memory in (t s : ℕ) → t < p.trellis.size → s < 2 ^ m → marked m self.new.marks.now t s ≡ mark (steps_of p) m (prefix m held number) t s }
    {
        let pass = self.pass;
        self.trips = self.trips.saturating_add(1);
        self.before.fill(pass.kind.start());
        for t in 0..pass.trellis.size() {
            let step = Step {
                pass,
                values: gather(pass.plan, pass.values, t),
                forced: forced_bit(pass.trellis.memory(), held, number, t),
            };
            step.run(self.before, self.after, self.marks, t);
            std::mem::swap(self.before, self.after);
        }
    }
}

// The bit that is forced at step t: one of the first bits of a number of so many bits, while they are held.
// Not one function with the receiver's `bit_at`: a public one asks nothing, and would test at every bit that the shift is in range.
fn forced_bit(bits: usize, held: usize, number: usize, t: usize) -> Option<bool>
    requires { (held ≤ bits) × (bits ≤ 8) }
    ensures { result ≡ prefix bits held number t }
{
    (t < held).then(|| (number >> (bits - 1 - t)) % 2 == 1)
}
