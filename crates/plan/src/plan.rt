// A plan: parts that have passed every question.
ghost use Rattle.std.specs.Prelude.{◌≡◌, ◌≤◌};
ghost use Rattle.plan.specs.Parts.{scheme};
ghost use Rattle.plan.specs.Questions.{plan_answer};
ghost use Rattle.plan.specs.Scheme.{sent_length as length_sent};

use crate::parts::Parts;

mod making;

#[derive(Drop)]
pub struct Plan {
    parts: Parts,
    // the length of what is sent for a block, kept so that no call divides for it
    sent_length: usize,
    ghost accepted: { plan_answer (scheme parts) ≡ 0 },
    ghost sent: { sent_length ≡ length_sent (scheme parts) },
}
