// The tail-biting encoder.
ghost use Rattle.std.specs.Prelude.{◌≡◌, ◌*◌, ◌++◌, length, drop, is_ok, if◌then◌else◌};
ghost use Rattle.code.specs.Answers.{encode_answer};
ghost use Rattle.code.specs.Coding.{word as code_word};
ghost use Rattle.code.specs.Laws.{TailBiting};
ghost use Rattle.code.specs.Numbers.{bits_of};
ghost use Rattle.plan.specs.Faults.{chain_number, outcome};
ghost use Rattle.plan.specs.Plans.{plan_scheme};

use crate::block::Block;
use plan::{ChainFault, Plan};

// The code word of a block, into the first places of `word`.
pub fn encode(plan: &Plan, block: &[u8], word: &mut [bool]) -> Result<(), ChainFault>
    ensures answer { outcome chain_number result ≡ encode_answer (plan_scheme plan.now) block.now (length word.old) }
    ensures after { word.new ≡ (if is_ok result then code_word (plan_scheme plan.now) (bits_of block.now) ++ drop (2 * (plan_scheme plan.now).block) word.old else word.old) }
    ensures rotates { TailBiting (plan_scheme plan.now) }
{
    let block = Block::new(plan, block)?;
    if word.len() < 2 * block.len() {
        return Err(ChainFault::TooShort);
    }
    block.write_pairs(word);
    Ok(())
}
