// How a sender is made, and how it sends.
ghost use Rattle.std.specs.Prelude.{◌≡◌, true, ◌++◌, length, drop, is_ok, IfOk, if◌then◌else◌, ◌≢◌};
ghost use Rattle.plan.specs.Faults.{chain_number, outcome};
ghost use Rattle.plan.specs.Plans.{plan_scheme};
ghost use Rattle.sender.specs.Answers.{making_answer, send_answer};
ghost use Rattle.sender.specs.Scrambling.{fits as scheme_fits};
ghost use Rattle.sender.specs.Senders.{sender_scheme};
ghost use Rattle.sender.specs.Transmission.{symbols, transmission};
ghost use Rattle.code.specs.Numbers.{bits_of};

use crate::scrambling::fits;
use crate::sender::Sender;
use code::{encode, load};
use plan::{ChainFault, Plan};
use scrambler::Scrambler;
use std::alloc::Global;

impl<'p, S: Scrambler + Drop> Sender<'p, S> {
    // A sender by this plan, where the scrambler fits it and the buffers find memory.
    pub fn new(heap: Global, plan: &'p Plan, mut scrambler: S) -> Result<Sender<'p, S>, ChainFault>
        ensures answer { outcome chain_number result ≡ making_answer (plan_scheme plan.now) (S.meaning scrambler) (is_ok result) }
        ensures made { IfOk result (λ s. (s.plan.now ≡ plan.now) × (S.meaning s.scrambler ≡ S.meaning scrambler)) }
        ensures fit { IfOk result (λ s. scheme_fits (sender_scheme s) (S.meaning s.scrambler) ≡ true) }
    {
        if !fits(plan, &mut scrambler) {
            return Err(ChainFault::Fit);
        }
        let word = vec![in heap; false; 2 * plan.parts().block_length]?;
        let array = vec![in heap; false; plan.sent_length()]?;
        Ok(Sender {
            plan,
            scrambler,
            word,
            array,
        })
    }

    // The on-air indices of a block, a byte each, into the first places of `out`.
    pub fn send(&mut self, block: &[u8], out: &mut [u8]) -> Result<(), ChainFault>
        ensures answer { outcome chain_number result ≡ send_answer (sender_scheme self.old) (S.meaning self.old.scrambler) block.now (length out.old) }
        ensures after { out.new ≡ (if is_ok result then transmission (sender_scheme self.old) (S.meaning self.old.scrambler) (bits_of block.now) ++ drop (symbols (sender_scheme self.old)) out.old else out.old) }
        ensures plan_kept { self.new.plan.now ≡ self.old.plan.now }
        ensures meaning_kept { S.meaning self.new.scrambler ≡ S.meaning self.old.scrambler }
        ensures fit { scheme_fits (sender_scheme self.old) (S.meaning self.old.scrambler) ≡ true → outcome chain_number result ≢ 11 }
    {
        encode(self.plan, block, self.word.as_mut_slice())?;
        if out.len() < self.plan.symbols() {
            return Err(ChainFault::TooShort);
        }
        load(self.plan, self.word.as_slice(), self.array.as_mut_slice())?;
        self.write_indices(out);
        Ok(())
    }
}
