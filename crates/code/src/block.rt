// A block of a plan.
ghost use Rattle.std.specs.Prelude.{◌≡◌, true};
ghost use Rattle.code.specs.Coding.{is_block};
ghost use Rattle.plan.specs.Plans.{plan_scheme};

use plan::{Plan, all_below};

mod coding;

// Whether these bytes are a block of the plan: as many as it says, each 0 or 1.
pub fn is_block(plan: &Plan, block: &[u8]) -> bool
    ensures { result ≡ is_block (plan_scheme plan.now) block.now }
{
    block.len() == plan.parts().block_length && all_below(block, 2)
}

// Bytes that are a block of a plan.
#[derive(Clone, Copy)]
pub struct Block<'a> {
    pub plan: &'a Plan,
    pub bytes: &'a [u8],
    ghost whole: { is_block (plan_scheme plan.now) bytes.now ≡ true },
}
