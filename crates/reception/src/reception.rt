// A receiver of a plan, with all the memory that its calls are lent.
ghost use Rattle.std.specs.Prelude.{◌≡◌, vec_len};
ghost use Rattle.plan.specs.Plans.{plan_scheme};
ghost use Rattle.plan.specs.Scheme.{sent_length};
ghost use Rattle.replay.specs.Given.{given};
ghost use Rattle.search.specs.Looking.{search_answer};

use receiver::Receiver;
use score::Kind;
use scrambler::Scrambler;

mod taking;

#[derive(Drop)]
pub struct Reception<S: Scrambler, K: Kind> {
    receiver: Receiver<S>,
    kind: K,
    // the values at the locations
    values: Vec<i16>,
    // the block that was shown last
    block: Vec<u8>,
    // the two columns of a look
    scores: Vec<K::Score>,
    marks: Vec<u8>,
    ghost locations: { vec_len values ≡ sent_length (plan_scheme receiver.plan) },
    ghost bits: { vec_len block ≡ (plan_scheme receiver.plan).block },
    ghost enough: { search_answer (plan_scheme receiver.plan) (given values.items block.items scores.items marks.items) ≡ 0 },
}
