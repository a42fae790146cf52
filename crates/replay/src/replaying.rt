// A whole list of calls, from the making of a receiver to the look after the last call.
ghost use Rattle.std.specs.Prelude.{◌≡◌, true, false, ◌⊎◌, ◌≢◌, map, length, take, drop, is_ok, IfOk};
ghost use Rattle.code.specs.Numbers.{bits_of};
ghost use Rattle.plan.specs.Faults.{chain_number, outcome};
ghost use Rattle.plan.specs.Plans.{plan_scheme};
ghost use Rattle.plan.specs.Scheme.{sent_length};
ghost use Rattle.receiver.specs.Calls.{making_answer};
ghost use Rattle.receiver.specs.Receivers.{view};
ghost use Rattle.score.specs.Blocks.{value_at};
ghost use Rattle.search.specs.Looking.{search_answer, shown};
ghost use Rattle.replay.specs.Given.{given};
ghost use Rattle.replay.specs.Ledger.{answers, ledger};
ghost use Rattle.replay.specs.Promise.{Promise};

use crate::call::{Call, Lent};
use crate::carrying::run;
use crate::looking::look_lent;
use plan::{ChainFault, Plan};
use receiver::Receiver;
use score::Kind;
use scrambler::Scrambler;
use std::alloc::Global;

// What each call answered, and the score of the block that the look after them showed, or why it showed none.
#[derive(Drop)]
pub struct Replayed<T> {
    pub answers: Vec<Result<(), ChainFault>>,
    pub shown: Result<T, ChainFault>,
}

// Makes a receiver, carries out every call, and looks with all that it is given. Each call is lent what it says, and at most
// what there is; the first half of `scores` is one column, the rest is the other. Memory for the answers is asked for first; where
// there is no call, none is asked for.
pub fn replay<S: Scrambler + Drop, K: Kind>(
    heap: Global,
    plan: Plan,
    scrambler: S,
    kind: &K,
    calls: &[Call],
    memory: &mut [i16],
    block: &mut [u8],
    scores: &mut [K::Score],
    marks: &mut [u8],
) -> Result<Replayed<K::Score>, ChainFault>
    ensures answer { (length calls.now ≡ 0) ⊎ (outcome chain_number result ≢ 255) → outcome chain_number result ≡ making_answer (view plan (S.meaning scrambler)) (length memory.old) }
    ensures answers { let v = view plan (S.meaning scrambler) in let w = given memory.old block.old scores.old marks.old in IfOk result (λ x. map (outcome chain_number) x.answers.items ≡ answers v w calls.now) }
    ensures looked { let w = given memory.old block.old scores.old marks.old in IfOk result (λ x. outcome chain_number x.shown ≡ search_answer (plan_scheme plan) w) }
    ensures promise { let v = view plan (S.meaning scrambler) in let w = given memory.old block.old scores.old marks.old in IfOk result (λ x. IfOk x.shown (λ score. Promise (K.Kind.scale kind.now) v w calls.now (bits_of block.new) score)) }
    ensures written { let s = plan_scheme plan in let w = given memory.old block.old scores.old marks.old in IfOk result (λ x. is_ok x.shown ≡ true → block.new ≡ shown (K.Kind.scale kind.now) s (value_at (ledger (view plan (S.meaning scrambler)) w calls.now)) block.old) }
    ensures values { let v = view plan (S.meaning scrambler) in let w = given memory.old block.old scores.old marks.old in (is_ok result ≡ true → take (sent_length (plan_scheme plan)) memory.new ≡ ledger v w calls.now) }
    ensures rest { let n = sent_length (plan_scheme plan) in drop n memory.new ≡ drop n memory.old }
    ensures past { let b = (plan_scheme plan).block in drop b block.new ≡ drop b block.old }
    ensures memory { is_ok result ≡ false → memory.new ≡ memory.old }
    ensures block { is_ok result ≡ false → block.new ≡ block.old }
    ensures scores { is_ok result ≡ false → scores.new ≡ scores.old }
    ensures marks { is_ok result ≡ false → marks.new ≡ marks.old }
    ensures unwritten { IfOk result (λ x. is_ok x.shown ≡ false → block.new ≡ block.old) }
    ensures unmarked { IfOk result (λ x. is_ok x.shown ≡ false → marks.new ≡ marks.old) }
{
    let mut answers = Vec::with_capacity(heap, calls.len())?;
    let mut receiver = Receiver::new(plan, scrambler, memory)?;
    run(
        &mut receiver,
        kind,
        calls,
        &mut answers,
        memory,
        block,
        scores,
        marks,
    );
    let all = Lent {
        memory: memory.len(),
        block: block.len(),
        old: scores.len(),
        new: scores.len(),
        marks: marks.len(),
    };
    let shown = look_lent(&receiver, kind, all, memory, block, scores, marks);
    Ok(Replayed { answers, shown })
}
