// The plans that the bench takes.
ghost use Rattle.std.specs.Prelude.{◌≡◌, ◌&&◌, IfOk};
ghost use Rattle.lines.specs.Faults.{line_number};
ghost use Rattle.lines.specs.Plans.{size_fits, plan_line_answer};
ghost use Rattle.plan.specs.Faults.{outcome};
ghost use Rattle.plan.specs.Parts.{scheme};
ghost use Rattle.plan.specs.Plans.{plan_scheme};

use crate::fault::LineFault;
use plan::{ChainFault, Parts, Plan};

// Whether a plan is small enough for the bench.
fn is_small(plan: &Plan) -> bool
    ensures { result ≡ size_fits (plan_scheme plan.now) }
{
    plan.parts().block_length <= 256 && plan.sent_length() <= 1024
}

// The plan with these parts, where it is small enough.
pub fn accept_plan(parts: Parts) -> Result<Plan, LineFault>
    ensures answer { outcome line_number result ≡ plan_line_answer (scheme parts) }
    ensures made { IfOk result (λ p. plan_scheme p ≡ scheme parts) }
{
    let plan = Plan::new(parts).map_err(ChainFault::from)?;
    if !is_small(&plan) {
        return Err(LineFault::Size);
    }
    Ok(plan)
}
