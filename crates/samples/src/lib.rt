// A plan that tests of several crates run on.
#![tactic(auto)]

ghost use Rattle.std.specs.Prelude.{◌≡◌, IfOk};
ghost use Rattle.plan.specs.Faults.{chain_number, outcome};
ghost use Rattle.plan.specs.Plans.{plan_scheme};
ghost use Rattle.samples.specs.Small.{small_scheme, small_answer, AnsweredOrNoMemory};

use plan::{ChainFault, Parts, Plan, PlanFault, constraint_fits};
use std::alloc::Global;

// A plan of nine bits that sends twelve, three to a symbol. Its send list is new memory, which may be wanting.
pub fn small_plan(heap: Global, constraint: usize) -> Result<Plan, ChainFault>
    ensures answer { AnsweredOrNoMemory (outcome chain_number result) (small_answer constraint) }
    ensures made { IfOk result (λ p. plan_scheme p ≡ small_scheme constraint) }
{
    if !constraint_fits(constraint) {
        return Err(ChainFault::Plan(PlanFault::ConstraintLength));
    }
    let parts = Parts {
        constraint,
        period: 3,
        send_list: vec![in heap; 0, 1, 2, 5]?,
        block_length: 9,
        symbol_bits: 3,
        frame_length: 4,
        increment: 5,
    };
    Ok(Plan::new(parts)?)
}

#[cfg(test)]
mod tests {
    use super::*;
    use std::test::Fail;

    // Of the constraint lengths from 6 to 10, the standard has 7 and 9.
    #[test]
    fn two_lengths(rt: HostRuntime) -> Result<(), Fail> {
        for constraint in [7, 9] {
            let plan = small_plan(rt.alloc(), constraint)?;
            assert_eq!(rt; plan.sent_length(), 12);
            assert_eq!(rt; plan.symbols(), 4);
        }
        for constraint in [6, 8, 10] {
            let fault = small_plan(rt.alloc(), constraint).err();
            assert_eq!(rt; fault, Some(ChainFault::Plan(PlanFault::ConstraintLength)));
        }
        Ok(())
    }
}
