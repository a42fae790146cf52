// The plan of a row.
ghost use Rattle.std.specs.Prelude.{◌≡◌, IfOk, IfErr, Some};
ghost use Rattle.plan.specs.Faults.{chain_number, outcome};
ghost use Rattle.plan.specs.Plans.{plan_scheme};
ghost use Rattle.plan.specs.Parts.{scheme};
ghost use Rattle.plan.specs.declared.fault.ChainFault.TheVariants.{OutOfMemory};
ghost use Rattle.rows.specs.Schemes.{entry_scheme, row_answer, row_scheme, Answered};

use crate::pattern::Pattern;
use crate::row::{Entry, Row};
use plan::{ChainFault, Parts, Plan, PlanFault, constraint_fits};
use std::alloc::Global;

impl Row {
    // The plan of this row with a code of this constraint length. Its send list is new memory, which may be wanting.
    pub fn plan(self, heap: Global, constraint: usize) -> Result<Plan, ChainFault>
        ensures answer { Answered (outcome chain_number result) (row_answer self constraint) }
        ensures made { IfOk result (λ p. Some (plan_scheme p) ≡ row_scheme self constraint) }
    {
        let Some(entry) = self.entry() else {
            return Err(ChainFault::Row);
        };
        if !constraint_fits(constraint) {
            return Err(ChainFault::Plan(PlanFault::ConstraintLength));
        }
        Ok(Plan::new(parts_of(heap, entry, constraint)?)?)
    }
}

// The parts of an entry's plan.
fn parts_of(heap: Global, entry: Entry, constraint: usize) -> Result<Parts, ChainFault>
    ensures made { IfOk result (λ p. scheme p ≡ entry_scheme entry constraint) }
    ensures refused { IfErr result (λ e. e ≡ OutOfMemory) }
{
    let pattern = Pattern::of(entry.rate, constraint);
    let send_list = pattern.send_list(heap)?;
    Ok(Parts {
        constraint,
        period: pattern.period(),
        send_list,
        block_length: entry.block_length,
        symbol_bits: entry.symbol_bits,
        frame_length: entry.frame_length,
        increment: entry.increment,
    })
}
