// A sender: a plan, a scrambler that fits it, and the buffers that the blocks go through.
ghost use Rattle.std.specs.Prelude.{◌≡◌, ◌*◌, true, vec_len};
ghost use Rattle.plan.specs.Plans.{plan_scheme};
ghost use Rattle.plan.specs.Scheme.{sent_length};
ghost use Rattle.sender.specs.Scrambling.{fits};

use plan::Plan;
use scrambler::Scrambler;

mod indices;
mod sending;

#[derive(Drop)]
pub struct Sender<'p, S: Scrambler> {
    plan: &'p Plan,
    scrambler: S,
    // the code word of the block in hand
    word: Vec<bool>,
    // its sent bits, each at its location
    array: Vec<bool>,
    ghost fit: { fits (plan_scheme plan.now) (S.meaning scrambler) ≡ true },
    ghost word_long: { vec_len word ≡ 2 * (plan_scheme plan.now).block },
    ghost array_long: { vec_len array ≡ sent_length (plan_scheme plan.now) },
}
