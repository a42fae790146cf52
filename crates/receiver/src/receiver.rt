// A receiver: a plan, and a scrambler that fits it. Its values lie in a memory that is lent to each call.
ghost use Rattle.std.specs.Prelude.{◌≡◌, true};
ghost use Rattle.plan.specs.Plans.{plan_scheme};
ghost use Rattle.sender.specs.Scrambling.{fits};

use plan::Plan;
use scrambler::Scrambler;

mod hearing;
mod looking;

#[derive(Drop)]
pub struct Receiver<S: Scrambler> {
    plan: Plan,
    scrambler: S,
    ghost fit: { fits (plan_scheme plan) (S.meaning scrambler) ≡ true },
}
