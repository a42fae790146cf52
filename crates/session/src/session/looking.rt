// How a receiver of the bench shows the best block.
ghost use Rattle.std.specs.Prelude.{◌≡◌, true, length, IfOk, vec_len};
ghost use Rattle.lines.specs.Plans.{size_fits};
ghost use Rattle.plan.specs.Faults.{chain_number, outcome};
ghost use Rattle.plan.specs.Plans.{plan_scheme};
ghost use Rattle.receiver.specs.Receivers.{view_of};
ghost use Rattle.scrambler.specs.Meanings.{table_meaning};
ghost use Rattle.session.specs.Held.{Shows};

use crate::session::{MARKS, SCORES, VALUES};
use plan::ChainFault;
use receiver::Receiver;
use score::Total;
use scrambler::Table;
use trellis::Column;

// Writes the best block, and answers its score. Half of the scores are one column, half the other.
pub(crate) fn look(
    receiver: &Receiver<Table>,
    memory: &[i16],
    block: &mut [u8],
    scores: &mut [u64],
    marks: &mut [u8],
) -> Result<u64, ChainFault>
    requires small { size_fits (plan_scheme receiver.now.plan) ≡ true }
    requires values { length memory.now ≡ VALUES }
    requires block { length block.old ≡ (plan_scheme receiver.now.plan).block }
    requires scores { length scores.old ≡ SCORES }
    requires marks { length marks.old ≡ MARKS }
    ensures answer { outcome chain_number result ≡ 0 }
    ensures shows { IfOk result (λ score. Shows (view_of table_meaning receiver.now) memory.now score block.new) }
{
    // Split in place: the proof of what a memory ends as closes for a function that answers two slices, and not for one that answers two columns.
    let (first, second) = scores.split_at_mut(SCORES / 2);
    let mut old = Column { scores: first };
    let mut new = Column { scores: second };
    receiver.look(&Total, memory, block, &mut old, &mut new, marks)
}
