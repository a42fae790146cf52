// A text of bits, sent block by block.
ghost use Rattle.std.specs.Prelude.{◌≡◌, ℕ, ◌<◌, ◌≤◌, false, List, [], ◌∷◌, ◌++◌, length, Option, Some, IfOk, IfErr, MatchResult};
ghost use Rattle.std.specs.Io.KnownBytes.{Appends};
ghost use Rattle.plan.specs.Plans.{plan_scheme};
ghost use Rattle.scrambler.specs.Meaning.{Meaning};
ghost use Rattle.plan.specs.Scheme.{Scheme};
ghost use Rattle.sender.specs.Answers.{making_answer};
ghost use Rattle.laboratory.specs.Sending.{on_air, bit_lines, Cut, Unsent};
ghost use Rattle.laboratory.specs.TextSending.{Holding, TextRefused};

use crate::sending::Sending;
use crate::trouble::Trouble;
use bits_text::BitsReader;
use plan::Plan;
use scrambler::Scrambler;
use std::alloc::Global;
use std::io::{Read, Write};

// The bits of a text as they come in, until they are a block.
#[derive(Drop)]
struct TextSending<'p, S: Scrambler> {
    sending: Sending<'p, S>,
    reader: BitsReader,
    // the bits of the block in hand
    block: Vec<u8>,
    // how many a block has
    length: usize,
}

impl<'p, S: Scrambler + Drop> TextSending<'p, S> {
    fn new(heap: Global, plan: &'p Plan, scrambler: S) -> Result<TextSending<'p, S>, Trouble>
        ensures made { (w c : Option (List ℕ)) → IfOk result (λ x. Holding S.meaning (plan_scheme plan.now) (S.meaning scrambler) x [] [] w w c c) }
        ensures none { IfOk result (λ x. x.block.items ≡ []) }
        ensures refused { IfErr result (λ e. Unsent (making_answer (plan_scheme plan.now) (S.meaning scrambler) false) e) }
    {
        let sending = Sending::new(heap, plan, scrambler)?;
        Ok(TextSending {
            sending,
            reader: BitsReader::new(),
            block: Vec::new(heap),
            length: plan.parts().block_length,
        })
    }

    // Sends the block in hand, if it is a whole one.
    fn send_whole<W: Write, C: Write>(
        &mut self,
        output: &mut W,
        copy: &mut C,
    ) -> Result<(), Trouble>
        ensures { (s : Scheme) (m : Meaning) (text : List ℕ) (bs : List (List ℕ)) (w c : Option (List ℕ)) →
            Holding S.meaning s m self.old text bs w (W.contents output.old) c (C.contents copy.old) → length self.old.block.items ≤ s.block →
            MatchResult result
            (λ _. (more : List (List ℕ)) × Holding S.meaning s m self.new text more w (W.contents output.new) c (C.contents copy.new) × (length self.new.block.items < s.block))
            (λ e. Unsent (making_answer s m false) e) }
    {
        if self.block.len() == self.length {
            self.sending.send(self.block.as_slice(), output, copy)?;
            self.block.clear();
        }
        Ok(())
    }

    // Nothing may be left over at the end.
    fn finish(&self) -> Result<(), Trouble>
        ensures { MatchResult result (λ _. self.now.block.items ≡ []) (λ e. (e ≡ Trouble.Unfinished (length self.now.block.items) self.now.length) × (0 < length self.now.block.items)) }
    {
        if self.block.is_empty() {
            return Ok(());
        }
        Err(Trouble::Unfinished {
            bits: self.block.len(),
            length: self.length,
        })
    }

    // Goes past a byte.
    fn take<W: Write, C: Write>(
        &mut self,
        byte: u8,
        output: &mut W,
        copy: &mut C,
    ) -> Result<(), Trouble>
        ensures { (s : Scheme) (m : Meaning) (text : List ℕ) (bs : List (List ℕ)) (w c : Option (List ℕ)) →
            Holding S.meaning s m self.old text bs w (W.contents output.old) c (C.contents copy.old) → length self.old.block.items < s.block →
            MatchResult result
            (λ _. (more : List (List ℕ)) × Holding S.meaning s m self.new (text ++ byte ∷ []) more w (W.contents output.new) c (C.contents copy.new) × (length self.new.block.items < s.block))
            (λ e. (after : List ℕ) → TextRefused s m (text ++ byte ∷ after) e) }
    {
        match self.reader.take(byte) {
            Ok(Some(bit)) => {
                self.block.push(bit)?;
                self.send_whole(output, copy)
            }
            Ok(None) => Ok(()),
            Err(stray) => Err(Trouble::Bits {
                text: "the input",
                stray,
            }),
        }
    }
}

// Sends each block of a text of bits, and writes it to the copy. The reader is asked for a byte at a time.
pub fn send_text<S: Scrambler + Drop, R: Read + Drop, W: Write, C: Write>(
    heap: Global,
    plan: &Plan,
    scrambler: S,
    text: R,
    output: &mut W,
    copy: &mut C,
) -> Result<(), Trouble>
    ensures { (xs : List ℕ) → R.remaining text ≡ Some xs → MatchResult result
        (λ _. (bs : List (List ℕ)) × Cut (plan_scheme plan.now).block xs bs
        × Appends (W.contents output.old) (W.contents output.new) (on_air (plan_scheme plan.now) (S.meaning scrambler) bs)
        × Appends (C.contents copy.old) (C.contents copy.new) (bit_lines bs))
        (λ e. TextRefused (plan_scheme plan.now) (S.meaning scrambler) xs e) }
{
    let mut sending = TextSending::new(heap, plan, scrambler)?;
    for byte in text.bytes() {
        sending.take(byte?, output, copy)?;
    }
    sending.finish()
}
