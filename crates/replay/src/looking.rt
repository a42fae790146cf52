// A look that is lent the first part of each memory: what it is lent, and at most what there is.
ghost use Rattle.std.specs.Prelude.{◌≡◌, false, take, is_ok, IfOk, if◌then◌else◌};
ghost use Rattle.code.specs.Numbers.{bits_of};
ghost use Rattle.plan.specs.Faults.{chain_number, outcome};
ghost use Rattle.plan.specs.Plans.{plan_scheme};
ghost use Rattle.plan.specs.Scheme.{sent_length};
ghost use Rattle.score.specs.Blocks.{value_at};
ghost use Rattle.search.specs.Looking.{Found, shown, search_answer};
ghost use Rattle.replay.specs.Given.{given};
ghost use Rattle.replay.specs.Ledger.{lent_of};

use crate::call::Lent;
use plan::ChainFault;
use receiver::Receiver;
use score::Kind;
use scrambler::Scrambler;
use trellis::Column;

// Half of the memory for scores goes to each column. Split in place: no proof closes for a function that answers two columns.
// The memories are parameters as in `carry_out`.
pub(crate) fn look_lent<'a, S: Scrambler + Drop, K: Kind>(
    receiver: &'a Receiver<S>,
    kind: &'a K,
    lent: Lent,
    memory: &'a [i16],
    block: &mut [u8],
    scores: &mut [K::Score],
    marks: &mut [u8],
) -> Result<K::Score, ChainFault>
    ensures answer { outcome chain_number result ≡ search_answer (plan_scheme receiver.now.plan) (lent_of (given memory.now block.old scores.old marks.old) lent) }
    ensures found { let k = K.Kind.scale kind.now in let s = plan_scheme receiver.now.plan in let v = value_at (take (sent_length s) memory.now) in IfOk result (λ score. Found k s v (bits_of block.new) score) }
    ensures block { let k = K.Kind.scale kind.now in let s = plan_scheme receiver.now.plan in let v = value_at (take (sent_length s) memory.now) in block.new ≡ (if is_ok result then shown k s v block.old else block.old) }
    ensures marks { is_ok result ≡ false → marks.new ≡ marks.old }
{
    let half = scores.len() / 2;
    let (first, second) = scores.split_at_mut(half);
    let states = lent.old.min(first.len());
    let ends = lent.new.min(second.len());
    let mut old = Column {
        scores: &mut first[..states],
    };
    let mut new = Column {
        scores: &mut second[..ends],
    };
    let values = lent.memory.min(memory.len());
    let size = lent.block.min(block.len());
    let bytes = lent.marks.min(marks.len());
    receiver.look(
        kind,
        &memory[..values],
        &mut block[..size],
        &mut old,
        &mut new,
        &mut marks[..bytes],
    )
}
