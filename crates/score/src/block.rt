// The score of a block against the values that were heard.
ghost use Rattle.std.specs.Prelude.{◌≡◌, true, length, IfOk};
ghost use Rattle.code.specs.Blocks.{block_scheme, block_bits};
ghost use Rattle.code.specs.Numbers.{bits_of};
ghost use Rattle.plan.specs.Faults.{chain_number, outcome};
ghost use Rattle.plan.specs.Plans.{plan_scheme};
ghost use Rattle.score.specs.Blocks.{value_at, block_score, score_answer, Agrees, Contradicts};
ghost use Rattle.score.specs.Scale.{better};
ghost use Rattle.score.specs.Sums.{TakesEachOnce};

use crate::gathered::gathering::gather;
use crate::kind::Kind;
use code::Block;
use plan::{ChainFault, Plan};

// The score of all steps of a block.
fn score_steps<K: Kind>(kind: &K, memory: &[i16], block: &Block<'_>) -> K::Score
    ensures { result ≡ block_score (K.Kind.scale kind.now) (block_scheme block.now) (value_at memory.now) (block_bits block.now) }
{
    let mut score = kind.start();
    // by step: a block has its pairs, and the memory its values, by the step's number
    for t in 0..block.len() {
        let bits = block.pair(t).unwrap();
        score = gather(block.plan, memory, t).absorb(kind, bits, score);
    }
    score
}

// The score of a block against the values of the memory. A block that contradicts no value scores the start, and one that contradicts a value scores worse.
pub fn score_of<K: Kind>(
    plan: &Plan,
    kind: &K,
    memory: &[i16],
    block: &[u8],
) -> Result<K::Score, ChainFault>
    ensures answer { outcome chain_number result ≡ score_answer (plan_scheme plan.now) block.now (length memory.now) }
    ensures score { IfOk result (λ x. x ≡ block_score (K.Kind.scale kind.now) (plan_scheme plan.now) (value_at memory.now) (bits_of block.now)) }
    ensures each { IfOk result (λ x. TakesEachOnce (K.Kind.scale kind.now) (plan_scheme plan.now) (value_at memory.now) (bits_of block.now) x) }
    ensures agreed { Agrees (plan_scheme plan.now) (value_at memory.now) (bits_of block.now) → IfOk result (λ x. x ≡ (K.Kind.scale kind.now).start) }
    ensures contradicted { Contradicts (plan_scheme plan.now) (value_at memory.now) (bits_of block.now) → IfOk result (λ x. better (K.Kind.scale kind.now) (K.Kind.scale kind.now).start x ≡ true) }
{
    let block = Block::new(plan, block)?;
    if memory.len() < plan.sent_length() {
        return Err(ChainFault::TooShort);
    }
    Ok(score_steps(kind, memory, &block))
}
