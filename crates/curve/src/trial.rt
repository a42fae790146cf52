// One block, from random bits to its counted errors.
ghost use Rattle.std.specs.Prelude.{◌≡◌, IfOk, OnOk, IfSome, length};
ghost use Rattle.code.specs.Numbers.{bits_of};
ghost use Rattle.plan.specs.Plans.{plan_scheme};
ghost use Rattle.receiver.specs.Receivers.{view};
ghost use Rattle.replay.specs.Promise.{Promise};
ghost use Rattle.rows.specs.Schemes.{row_scheme};
ghost use Rattle.score.specs.Kinds.{total_scale};
ghost use Rattle.scrambler.specs.Meanings.{table_meaning};
ghost use Rattle.search.specs.Looking.{shown as best_block};
ghost use Rattle.curve.specs.Trials.{enough, values as values_after, next_air, IsTrial};

use crate::calls::OnAir;
use crate::choice::Choice;
use crate::sent::drawn_and_sent;
use crate::trouble::Trouble;
use channel::Air;
use laboratory::register_table;
use plan::Plan;
use replay::{Call, Replayed, replay};
use score::Total;
use scrambler::Table;
use std::alloc::Global;
use trellis::Trellis;

// What came of one block: as it was sent, as it was shown, and its score.
#[derive(Drop)]
pub struct Trial {
    pub sent: Vec<u8>,
    pub shown: Vec<u8>,
    pub score: u64,
}

// Draws a block, sends it through the air, and decodes what is heard.
pub(crate) fn run_trial(heap: Global, choice: Choice, air: &mut Air) -> Result<Trial, Trouble>
    ensures trial { IfOk result (λ x. IfSome (row_scheme choice.row choice.constraint) (λ s. IsTrial s air.old x)) }
    ensures air { OnOk result (IfSome (row_scheme choice.row choice.constraint) (λ s. air.new ≡ next_air s air.old)) }
{
    let plan = choice.row.plan(heap, choice.constraint)?;
    let sent = drawn_and_sent(heap, &plan, &mut air.generator)?;
    let mut table = register_table(heap, &plan)?;
    let on_air = OnAir {
        plan: &plan,
        indices: sent.indices.as_slice(),
    };
    let calls = on_air.calls(heap, &mut table, air)?;
    let mut shown = vec![in heap; 0; plan.parts().block_length]?;
    let score = decoded(heap, plan, table, calls.as_slice(), shown.as_mut_slice())?;
    Ok(Trial {
        sent: sent.block,
        shown,
        score,
    })
}

// The block that fits the calls best, and its score. The receiver's scrambler is a table of the register's values.
fn decoded(
    heap: Global,
    plan: Plan,
    table: Table,
    calls: &[Call],
    block: &mut [u8],
) -> Result<u64, Trouble>
    requires { length block.old ≡ (plan_scheme plan).block }
    ensures promise { IfOk result (Promise total_scale (view plan (table_meaning table)) (enough (plan_scheme plan)) calls.now (bits_of block.new)) }
    ensures shown { OnOk result (block.new ≡ best_block total_scale (plan_scheme plan) (values_after (view plan (table_meaning table)) calls.now) block.old) }
{
    let trellis = Trellis::of(&plan);
    let mut memory = vec![in heap; 0; plan.sent_length()]?;
    let mut scores = vec![in heap; 0; trellis.states().saturating_mul(2)]?;
    let mut marks = vec![in heap; 0; trellis.mark_bytes()]?;
    let Replayed { answers: _, shown } = replay(
        heap,
        plan,
        table,
        &Total,
        calls,
        memory.as_mut_slice(),
        block,
        scores.as_mut_slice(),
        marks.as_mut_slice(),
    )?;
    Ok(shown?)
}
