// The block that wins.
ghost use Rattle.std.specs.Prelude.{◌≡◌, ◌+◌, ◌*◌, ◌^◌, ◌≤◌};
ghost use Rattle.plan.specs.Plans.{plan_scheme};
ghost use Rattle.score.specs.Blocks.{value_at};
ghost use Rattle.trellis.specs.Choice.{final, winner};
ghost use Rattle.search.specs.Looking.{shown};
ghost use Rattle.search.specs.Stepping.{scale_of, steps_of};

use crate::pass::Workspace;
use score::Kind;

impl<'p, 'a, 'm, 'c, K: Kind> Workspace<'p, 'a, 'm, 'c, K> {
    // Writes the block that survives from the winning start number, and answers its score.
    pub(crate) fn pick(&mut self, block: &mut [u8]) -> K::Score
        ensures block { let p = self.old.pass.now in block.new ≡ shown (scale_of p) (plan_scheme p.plan.now) (value_at p.values.now) block.old }
        ensures score { let p = self.old.pass.now in let st = steps_of p in let m = p.trellis.memory in result ≡ final st m p.trellis.size (winner st m p.trellis.size (2 ^ m)) }
        ensures trips { self.new.trips ≤ self.old.trips + 2 * 2 ^ self.old.pass.now.trellis.memory + 3 }
    {
        let pass = self.pass;
        let start = self.winner();
        self.sweep(pass.trellis.memory(), start);
        pass.trellis.trace_back(self.marks, start, block);
        self.survivor(start)
    }
}
