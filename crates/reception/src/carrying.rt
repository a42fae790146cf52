// Carrying out an entry, lent all that a reception has.
ghost use Rattle.std.specs.Prelude.{◌≡◌, length, is_ok, IfOk, None};
ghost use Rattle.plan.specs.Faults.{chain_number, outcome};
ghost use Rattle.plan.specs.Plans.{plan_scheme};
ghost use Rattle.plan.specs.Scheme.{sent_length};
ghost use Rattle.receiver.specs.Receivers.{view_of};
ghost use Rattle.reception.specs.Taking.{Takes};
ghost use Rattle.replay.specs.Given.{given};

use crate::looking::look;
use entries::Entry;
use plan::ChainFault;
use receiver::Receiver;
use score::Kind;
use scrambler::Scrambler;

// The answer to an entry that shows nothing.
fn unshown<T: Drop>(done: Result<(), ChainFault>) -> Result<Option<T>, ChainFault>
    ensures answer { outcome chain_number result ≡ outcome chain_number done }
    ensures accepted { is_ok result ≡ is_ok done }
    ensures none { IfOk result (λ shown. shown ≡ None) }
{
    done.map(|()| None)
}

// The memories are four parameters, as where a list of calls is carried out.
pub(crate) fn carry_out<S: Scrambler + Drop, K: Kind>(
    receiver: &mut Receiver<S>,
    kind: &K,
    entry: Entry,
    values: &mut [i16],
    block: &mut [u8],
    scores: &mut [K::Score],
    marks: &mut [u8],
) -> Result<Option<K::Score>, ChainFault>
    requires locations { length values.old ≡ sent_length (plan_scheme receiver.old.plan) }
    requires bits { length block.old ≡ (plan_scheme receiver.old.plan).block }
    ensures takes { let w = given values.old block.old scores.old marks.old in Takes (K.Kind.scale kind.now) (view_of S.meaning receiver.old) w values.old entry result values.new block.new }
    ensures kept { view_of S.meaning receiver.new ≡ view_of S.meaning receiver.old }
{
    match entry {
        Entry::Hear {
            place,
            index,
            weight,
        } => unshown(receiver.hear(values, place as usize, index, weight)),
        Entry::Note { location, value } => {
            unshown(receiver.note(values, location as usize, value))
        }
        Entry::Blank { place } => unshown(receiver.blank(values, place as usize)),
        Entry::Look => look(receiver, kind, values, block, scores, marks),
    }
}
