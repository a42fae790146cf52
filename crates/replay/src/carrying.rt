// Carrying out the calls of a list, one after the other.
ghost use Rattle.std.specs.Prelude.{◌≡◌, ◌≤◌, ◌≢◌, [], map, length, drop, vec_capacity};
ghost use Rattle.plan.specs.Faults.{chain_number, outcome};
ghost use Rattle.plan.specs.Plans.{plan_scheme};
ghost use Rattle.receiver.specs.Receivers.{view_of};
ghost use Rattle.search.specs.Looking.{search_answer};
ghost use Rattle.replay.specs.Given.{given};
ghost use Rattle.replay.specs.Ledger.{values_lent, answer, answers as all_answers, after, after_all};

use crate::call::Call;
use crate::looking::look_lent;
use plan::ChainFault;
use receiver::Receiver;
use score::Kind;
use scrambler::Scrambler;

// How many values a call is lent, where there are as many.
fn values_lent(call: Call) -> usize
    ensures { result ≡ values_lent call }
{
    match call {
        Call::Hear { lent, .. } | Call::Note { lent, .. } | Call::Blank { lent, .. } => lent,
        Call::Look { lent } => lent.memory,
    }
}

// Carries out one call. A look writes nothing where one that is lent everything would be refused.
// The memories are four parameters: were they `&mut` fields, each clause would have to say too that a field lends the same memory still.
fn carry_out<S: Scrambler + Drop, K: Kind>(
    receiver: &mut Receiver<S>,
    kind: &K,
    call: Call,
    memory: &mut [i16],
    block: &mut [u8],
    scores: &mut [K::Score],
    marks: &mut [u8],
) -> Result<(), ChainFault>
    ensures answer { outcome chain_number result ≡ answer (view_of S.meaning receiver.old) (given memory.old block.old scores.old marks.old) call }
    ensures after { memory.new ≡ after (view_of S.meaning receiver.old) (given memory.old block.old scores.old marks.old) call memory.old }
    ensures rest { let b = (plan_scheme receiver.old.plan).block in drop b block.new ≡ drop b block.old }
    ensures block { let w = given memory.old block.old scores.old marks.old in (search_answer (plan_scheme receiver.old.plan) w ≢ 0 → block.new ≡ block.old) }
    ensures marks { let w = given memory.old block.old scores.old marks.old in (search_answer (plan_scheme receiver.old.plan) w ≢ 0 → marks.new ≡ marks.old) }
    ensures kept { view_of S.meaning receiver.new ≡ view_of S.meaning receiver.old }
{
    let lent = values_lent(call).min(memory.len());
    let part = &mut memory[..lent];
    match call {
        Call::Hear {
            place,
            index,
            weight,
            ..
        } => receiver.hear(part, place, index, weight),
        Call::Note {
            location,
            value,
            ..
        } => receiver.note(part, location, value),
        Call::Blank { place, .. } => receiver.blank(part, place),
        Call::Look { lent } => {
            look_lent(receiver, kind, lent, part, block, scores, marks).map(|_| ())
        }
    }
}

// Carries out every call, and adds its answer. The memory for the answers is there before; the memories are parameters as in `carry_out`.
pub(crate) fn run<S: Scrambler + Drop, K: Kind>(
    receiver: &mut Receiver<S>,
    kind: &K,
    calls: &[Call],
    answers: &mut Vec<Result<(), ChainFault>>,
    memory: &mut [i16],
    block: &mut [u8],
    scores: &mut [K::Score],
    marks: &mut [u8],
)
    requires empty { answers.old.items ≡ [] }
    requires room { length calls.now ≤ vec_capacity answers.old }
    ensures answers { map (outcome chain_number) answers.new.items ≡ all_answers (view_of S.meaning receiver.old) (given memory.old block.old scores.old marks.old) calls.now }
    ensures after { memory.new ≡ after_all (view_of S.meaning receiver.old) (given memory.old block.old scores.old marks.old) calls.now memory.old }
    ensures rest { let b = (plan_scheme receiver.old.plan).block in drop b block.new ≡ drop b block.old }
    ensures block { let w = given memory.old block.old scores.old marks.old in (search_answer (plan_scheme receiver.old.plan) w ≢ 0 → block.new ≡ block.old) }
    ensures marks { let w = given memory.old block.old scores.old marks.old in (search_answer (plan_scheme receiver.old.plan) w ≢ 0 → marks.new ≡ marks.old) }
    ensures kept { view_of S.meaning receiver.new ≡ view_of S.meaning receiver.old }
{
    for call in calls {
        let answer = carry_out(receiver, kind, *call, memory, block, scores, marks);
        let _ = answers.push(answer);
    }
}
