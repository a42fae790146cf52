// A look that is lent all that a reception has.
ghost use Rattle.std.specs.Prelude.{◌≡◌, length};
ghost use Rattle.entries.specs.declared.entry.Entry.TheVariants.{Look};
ghost use Rattle.plan.specs.Plans.{plan_scheme};
ghost use Rattle.plan.specs.Scheme.{sent_length};
ghost use Rattle.receiver.specs.Receivers.{view_of};
ghost use Rattle.reception.specs.Taking.{Takes};
ghost use Rattle.replay.specs.Given.{given};

use plan::ChainFault;
use receiver::Receiver;
use score::Kind;
use scrambler::Scrambler;
use trellis::Column;

// Half of the scores are one column, the rest is the other. Split in place: no proof closes for a function that answers two columns.
pub(crate) fn look<'a, S: Scrambler + Drop, K: Kind>(
    receiver: &'a Receiver<S>,
    kind: &'a K,
    values: &'a [i16],
    block: &mut [u8],
    scores: &mut [K::Score],
    marks: &mut [u8],
) -> Result<Option<K::Score>, ChainFault>
    requires locations { length values.now ≡ sent_length (plan_scheme receiver.now.plan) }
    requires bits { length block.old ≡ (plan_scheme receiver.now.plan).block }
    ensures { let w = given values.now block.old scores.old marks.old in Takes (K.Kind.scale kind.now) (view_of S.meaning receiver.now) w values.now Look result values.now block.new }
{
    let half = scores.len() / 2;
    let (first, second) = scores.split_at_mut(half);
    let mut old = Column { scores: first };
    let mut new = Column { scores: second };
    let score = receiver.look(kind, values, block, &mut old, &mut new, marks)?;
    Ok(Some(score))
}
