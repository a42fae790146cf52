// The pairs of coded bits that a block sends.
ghost use Rattle.std.specs.Prelude.{◌≡◌, ◌+◌, ◌*◌, ◌<◌, ◌≤◌, ◌++◌, length, drop, IfOk, IfErr, is_ok, if◌then◌else◌, Some, None, nat_lt};
ghost use Rattle.code.specs.Blocks.{block_scheme, block_bits};
ghost use Rattle.code.specs.Coding.{word as code_word, around, coded, is_block};
ghost use Rattle.code.specs.Numbers.{num};
ghost use Rattle.plan.specs.declared.fault.ChainFault.TheVariants.{Block as NoBlock};
ghost use Rattle.plan.specs.Plans.{plan_scheme};

use crate::block::{Block, is_block};
use crate::generators::parity;
use crate::numbers::append;
use plan::{ChainFault, Plan};

impl<'a> Block<'a> {
    // These bytes as a block of the plan, or the refusal where they are none.
    pub fn new(plan: &'a Plan, bytes: &'a [u8]) -> Result<Block<'a>, ChainFault>
        ensures whole { is_ok result ≡ is_block (plan_scheme plan.now) bytes.now }
        ensures made { IfOk result (λ b. (b.plan.now ≡ plan.now) × (b.bytes.now ≡ bytes.now)) }
        ensures refused { IfErr result (λ fault. fault ≡ NoBlock) }
    {
        if !is_block(plan, bytes) {
            return Err(ChainFault::Block);
        }
        Ok(Block { plan, bytes })
    }

    // How many bits it has.
    pub fn len(&self) -> usize
        ensures { result ≡ (block_scheme self.now).block }
    {
        self.bytes.len()
    }

    // The pair of coded bits of a step, or none past the block.
    pub fn pair(&self, t: usize) -> Option<(bool, bool)>
        ensures { result ≡ (if nat_lt t (block_scheme self.now).block then Some (coded (block_scheme self.now) (block_bits self.now) t) else None) }
    {
        if t >= self.len() {
            return None;
        }
        let window = self.number(t, self.plan.parts().constraint);
        Some(parity(self.plan, window))
    }

    // The pairs of all steps, one after the other.
    pub(crate) fn write_pairs(&self, word: &mut [bool])
        requires { 2 * (block_scheme self.now).block ≤ length word.old }
        ensures { word.new ≡ code_word (block_scheme self.now) (block_bits self.now) ++ drop (2 * (block_scheme self.now).block) word.old }
    {
        let memory = self.plan.parts().constraint - 1;
        let low = (1 << memory) - 1;
        let mut state = self.number(0, memory);
        // by index: what `chunks_exact_mut` lends is not known afterwards
        for t in 0..self.len() {
            let window = append(state, self.bit(t + memory));
            let (first, second) = parity(self.plan, window);
            word[2 * t] = first;
            word[2 * t + 1] = second;
            state = window & low;
        }
    }

    // The number that so many bits write, from this index on.
    fn number(&self, first: usize, count: usize) -> u16
        requires { (first < (block_scheme self.now).block) × (count ≤ 9) }
        ensures { result ≡ num (around (block_scheme self.now) (block_bits self.now)) count first }
    {
        (first..first + count).map(|i| self.bit(i)).fold(0, append)
    }

    // The bit at an index that may pass the block's end once.
    fn bit(&self, index: usize) -> bool
        requires { index < 2 * (block_scheme self.now).block }
        ensures { result ≡ around (block_scheme self.now) (block_bits self.now) index }
    {
        let size = self.bytes.len();
        let place = if index < size { index } else { index - size };
        self.bytes[place] == 1
    }
}
