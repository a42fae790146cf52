// Noisy blocks, always the same for the same seed.
ghost use Rattle.std.specs.Prelude.{◌≡◌, ◌≤◌, IfOk, length, unsigned_abs, vec_len};
ghost use Rattle.channel.specs.Drawing.{drawn_bits, state_after};
ghost use Rattle.plan.specs.Plans.{plan_scheme};
ghost use Rattle.plan.specs.Scheme.{sent_length};
ghost use Rattle.speed.specs.Values.{heard_value, spread};

use channel::{Air, Generator};
use code::{encode, load};
use plan::{ChainFault, Plan};
use std::alloc::Global;
use std::num::{nearest_usize_to_f64, saturating_f64_to_i16};

// The value of a bit that is heard without noise.
const AMPLITUDE: f64 = 32.0;

// A block as it is sent, one bit a byte, and the values that are heard of it.
#[derive(Drop)]
pub struct Drawn {
    pub block: Vec<u8>,
    pub values: Vec<i16>,
}

#[derive(Clone, Copy)]
pub struct Source {
    generator: Generator,
    // the deviation of the noise, where a bit is sent with amplitude 1
    noise: f64,
}

impl Source {
    // A source in which each bit of a block has so many decibels more energy than the noise has power in a hertz.
    // The channel's deviation is that of a symbol: a bit of the block has the energy of all that is sent for it.
    pub(crate) fn new(plan: &Plan, decibels: i8, seed: u64) -> Source
        ensures { result.generator.state ≡ seed }
    {
        let air = Air::new(seed, decibels);
        Source {
            generator: air.generator,
            noise: air.noise * spread(plan),
        }
    }

    // Draws a block, sends it, and adds noise.
    pub(crate) fn draw(&mut self, heap: Global, plan: &Plan) -> Result<Drawn, ChainFault>
        ensures drawn { IfOk result (λ d. d.block.items ≡ drawn_bits self.old.generator.state (plan_scheme plan.now).block) }
        ensures whole { IfOk result (λ d. vec_len d.values ≡ sent_length (plan_scheme plan.now)) }
    {
        let mut block = vec![in heap; 0; plan.parts().block_length]?;
        self.generator.draw_bits(block.as_mut_slice());
        let sent = sent_bits(heap, plan, block.as_slice())?;
        let mut values = vec![in heap; 0; sent.len()]?;
        self.hear(sent.as_slice(), values.as_mut_slice());
        Ok(Drawn { block, values })
    }

    // A value for each sent bit.
    fn hear(&mut self, sent: &[bool], values: &mut [i16])
        ensures { length values.new ≡ length values.old }
    {
        for (value, bit) in values.iter_mut().zip(sent) {
            *value = self.value_of(*bit);
        }
    }

    // What is heard of a bit: positive for 0, negative for 1, where the noise is weaker.
    fn value_of(&mut self, bit: bool) -> i16
        ensures value { result ≡ heard_value self.old.noise self.old.generator.state bit }
        ensures within { unsigned_abs result ≤ 127 }
        ensures after { self.new.generator.state ≡ state_after 12 self.old.generator.state }
        ensures kept { self.new.noise ≡ self.old.noise }
    {
        let point = if bit { -1.0 } else { 1.0 };
        let heard = point + self.noise * self.generator.draw_normal();
        saturating_f64_to_i16((heard * AMPLITUDE).round()).clamp(-127, 127)
    }
}

// How much stronger the noise is against the bits of a block than against the sent ones.
fn spread(plan: &Plan) -> f64
    ensures { result ≡ spread (plan_scheme plan.now) }
{
    let sent = nearest_usize_to_f64(plan.sent_length());
    let bits = nearest_usize_to_f64(plan.parts().block_length);
    (sent / bits).sqrt()
}

// The bits that are sent for a block, by their locations.
fn sent_bits(heap: Global, plan: &Plan, block: &[u8]) -> Result<Vec<bool>, ChainFault>
    ensures { IfOk result (λ sent. vec_len sent ≡ sent_length (plan_scheme plan.now)) }
{
    let mut word = vec![in heap; false; block.len().saturating_mul(2)]?;
    encode(plan, block, word.as_mut_slice())?;
    let mut sent = vec![in heap; false; plan.sent_length()]?;
    load(plan, word.as_slice(), sent.as_mut_slice())?;
    Ok(sent)
}
