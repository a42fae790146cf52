// What the shape of a trellis tells.
ghost use Rattle.std.specs.Prelude.{◌≡◌, ◌-◌, ◌*◌, ◌/◌, ◌^◌};
ghost use Rattle.plan.specs.Plans.{plan_scheme};
ghost use Rattle.trellis.specs.Bounds.{shares};

use crate::trellis::Trellis;
use plan::Plan;

impl Trellis {
    // The trellis of a plan: a state has all bits of a window but one.
    pub fn of(plan: &Plan) -> Trellis
        ensures memory { result.memory ≡ (plan_scheme plan.now).constraint - 1 }
        ensures size { result.size ≡ (plan_scheme plan.now).block }
    {
        let parts = plan.parts();
        Trellis {
            memory: parts.constraint - 1,
            size: parts.block_length,
            row: 1 << (parts.constraint - 4),
        }
    }

    // How many bits a state has.
    pub fn memory(self) -> usize
        ensures { result ≡ self.memory }
    {
        self.memory
    }

    // How many steps there are.
    pub fn size(self) -> usize
        ensures { result ≡ self.size }
    {
        self.size
    }

    // How many states there are.
    pub fn states(self) -> usize
        ensures { result ≡ 2 ^ self.memory }
    {
        8 * self.row
    }

    // How many bytes hold the marks of every time and state.
    pub fn mark_bytes(self) -> usize
        ensures { result ≡ self.size * 2 ^ self.memory / 8 }
    {
        self.row * self.size
    }

    // Whether two states have the same first bits, so many of them.
    pub fn shares(self, held: usize, one: usize, other: usize) -> bool
        ensures { result ≡ shares self.memory held one other }
    {
        let free = self.memory.saturating_sub(held);
        one >> free == other >> free
    }
}
