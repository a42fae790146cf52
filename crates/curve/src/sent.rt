// A drawn block, and what is sent for it.
ghost use Rattle.std.specs.Prelude.{◌≡◌, IfOk, OnOk};
ghost use Rattle.channel.specs.Drawing.{state_after};
ghost use Rattle.plan.specs.Plans.{plan_scheme};
ghost use Rattle.curve.specs.Trials.{IsSent};

use channel::Generator;
use plan::{ChainFault, Plan};
use scrambler::Register;
use sender::{Sender, needed_width};
use std::alloc::Global;

#[derive(Drop)]
pub struct Sent {
    // one bit a byte
    pub block: Vec<u8>,
    // the on-air indices, one a byte
    pub indices: Vec<u8>,
}

// Draws a block of the plan's length and sends it, scrambled by the register.
pub(crate) fn drawn_and_sent(
    heap: Global,
    plan: &Plan,
    generator: &mut Generator,
) -> Result<Sent, ChainFault>
    ensures sent { IfOk result (IsSent (plan_scheme plan.now) generator.old.state) }
    ensures after { OnOk result (generator.new.state ≡ state_after (plan_scheme plan.now).block generator.old.state) }
{
    let mut block = vec![in heap; 0; plan.parts().block_length]?;
    generator.draw_bits(block.as_mut_slice());
    let mut indices = vec![in heap; 0; plan.symbols()]?;
    let register = Register::new(needed_width(plan.parts().symbol_bits))?;
    let mut sender = Sender::new(heap, plan, register)?;
    sender.send(block.as_slice(), indices.as_mut_slice())?;
    Ok(Sent { block, indices })
}
