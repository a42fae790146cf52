// The plans that are measured.
ghost use Rattle.std.specs.Prelude.{◌≡◌, IfOk};
ghost use Rattle.plan.specs.Plans.{plan_scheme};
ghost use Rattle.speed.specs.Measuring.{half_rate};

use plan::{ChainFault, Parts, Plan};
use std::alloc::Global;

// A plan of rate 1/2 for blocks of any length: every coded bit is sent once, in order.
// Two symbols to a frame always fill their frames.
pub(crate) fn half_rate_plan(
    heap: Global,
    constraint: usize,
    block_length: usize,
) -> Result<Plan, ChainFault>
    ensures made { IfOk result (λ p. plan_scheme p ≡ half_rate constraint block_length) }
{
    let parts = Parts {
        constraint,
        period: 1,
        send_list: vec![in heap; 0, 1]?,
        block_length,
        symbol_bits: 1,
        frame_length: 2,
        increment: 1,
    };
    Ok(Plan::new(parts)?)
}
