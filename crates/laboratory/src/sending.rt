// Blocks of bits, sent as lines of on-air indices.
ghost use Rattle.std.specs.Prelude.{◌≡◌, true, false, IfOk, IfErr, OnOk, vec_len};
ghost use Rattle.std.specs.Io.KnownBytes.{Appends};
ghost use Rattle.air_text.specs.Lines.{air_text};
ghost use Rattle.bits_text.specs.Texts.{block_line};
ghost use Rattle.code.specs.Numbers.{bits_of};
ghost use Rattle.plan.specs.Plans.{plan_scheme};
ghost use Rattle.sender.specs.Answers.{making_answer, send_answer};
ghost use Rattle.sender.specs.Scrambling.{fits};
ghost use Rattle.sender.specs.Senders.{sender_scheme};
ghost use Rattle.sender.specs.Transmission.{symbols, transmission};
ghost use Rattle.laboratory.specs.Sending.{count_on, on_air, bit_lines, drawn_blocks, Unsent};

use crate::trouble::Trouble;
use air_text::AirText;
use bits_text::BlockText;
use channel::Generator;
use plan::Plan;
use scrambler::Scrambler;
use sender::Sender;
use std::alloc::Global;
use std::io::Write;

// A sender with its output. What is kept is what is sent for one block.
#[derive(Drop)]
pub(crate) struct Sending<'p, S: Scrambler> {
    sender: Sender<'p, S>,
    indices: Vec<u8>,
    // how many blocks have been sent
    blocks: u64,
    ghost room: { vec_len indices ≡ symbols (sender_scheme sender) },
}

impl<'p, S: Scrambler + Drop> Sending<'p, S> {
    pub(crate) fn new(heap: Global, plan: &'p Plan, scrambler: S) -> Result<Sending<'p, S>, Trouble>
        ensures scheme { IfOk result (λ x. sender_scheme x.sender ≡ plan_scheme plan.now) }
        ensures meaning { IfOk result (λ x. S.meaning x.sender.scrambler ≡ S.meaning scrambler) }
        ensures none { IfOk result (λ x. x.blocks ≡ 0) }
        ensures fit { IfOk result (λ x. fits (plan_scheme plan.now) (S.meaning scrambler) ≡ true) }
        ensures refused { IfErr result (λ e. Unsent (making_answer (plan_scheme plan.now) (S.meaning scrambler) false) e) }
    {
        let sender = Sender::new(heap, plan, scrambler)?;
        let indices = vec![in heap; 0; plan.symbols()]?;
        Ok(Sending {
            sender,
            indices,
            blocks: 0,
        })
    }

    // Sends a block, and writes its bits to the copy.
    pub(crate) fn send<W: Write, C: Write>(
        &mut self,
        block: &[u8],
        output: &mut W,
        copy: &mut C,
    ) -> Result<(), Trouble>
        ensures scheme { sender_scheme self.new.sender ≡ sender_scheme self.old.sender }
        ensures meaning { S.meaning self.new.sender.scrambler ≡ S.meaning self.old.sender.scrambler }
        ensures number { OnOk result (self.new.blocks ≡ count_on self.old.blocks) }
        ensures air { OnOk result (Appends (W.contents output.old) (W.contents output.new) (air_text (count_on self.old.blocks) (transmission (sender_scheme self.old.sender) (S.meaning self.old.sender.scrambler) (bits_of block.now)))) }
        ensures bits { OnOk result (Appends (C.contents copy.old) (C.contents copy.new) (block_line block.now)) }
        ensures refused { IfErr result (λ e. Unsent (send_answer (sender_scheme self.old.sender) (S.meaning self.old.sender.scrambler) block.now (symbols (sender_scheme self.old.sender))) e) }
    {
        self.sender.send(block, self.indices.as_mut_slice())?;
        self.blocks = self.blocks.saturating_add(1);
        let text = AirText {
            block: self.blocks,
            indices: self.indices.as_slice(),
        };
        write!(output, "{text}")?;
        let line = BlockText(block);
        write!(copy, "{line}")?;
        Ok(())
    }
}

// Sends blocks that are drawn, and writes them to the copy.
pub fn send_drawn<S: Scrambler + Drop, W: Write, C: Write>(
    heap: Global,
    plan: &Plan,
    scrambler: S,
    blocks: u64,
    seed: u64,
    output: &mut W,
    copy: &mut C,
) -> Result<(), Trouble>
    ensures air { OnOk result (Appends (W.contents output.old) (W.contents output.new) (on_air (plan_scheme plan.now) (S.meaning scrambler) (drawn_blocks (plan_scheme plan.now).block seed blocks))) }
    ensures bits { OnOk result (Appends (C.contents copy.old) (C.contents copy.new) (bit_lines (drawn_blocks (plan_scheme plan.now).block seed blocks))) }
    ensures refused { IfErr result (λ e. Unsent (making_answer (plan_scheme plan.now) (S.meaning scrambler) false) e) }
{
    let mut sending = Sending::new(heap, plan, scrambler)?;
    let mut block = vec![in heap; 0; plan.parts().block_length]?;
    let mut generator = Generator::new(seed);
    for _sent in 0..blocks {
        generator.draw_bits(block.as_mut_slice());
        sending.send(block.as_slice(), output, copy)?;
    }
    Ok(())
}
