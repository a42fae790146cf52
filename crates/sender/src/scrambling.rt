// Scrambling a symbol, and taking the scrambling off.
ghost use Rattle.std.specs.Prelude.{◌≡◌};
ghost use Rattle.plan.specs.Plans.{plan_scheme};
ghost use Rattle.sender.specs.Scrambling.{needed_width, scrambled, unscrambled, fits as scheme_fits};

use plan::Plan;
use scrambler::Scrambler;

// The on-air index of a symbol of so many bits, with a scrambler's value.
#[tactic(auto, unfolding(crate::specs::Scrambling::scrambled))]
pub fn scramble(bits: usize, symbol: u8, value: u8) -> u8
    ensures { result ≡ scrambled bits symbol value }
{
    if bits <= 3 {
        symbol.wrapping_add(value) % 8
    } else {
        symbol ^ value
    }
}

// The symbol of an on-air index, with the value that scrambled it.
#[tactic(auto, unfolding(crate::specs::Scrambling::unscrambled))]
pub fn unscramble(bits: usize, index: u8, value: u8) -> u8
    ensures { result ≡ unscrambled bits index value }
{
    if bits <= 3 {
        index.wrapping_sub(value) % 8
    } else {
        index ^ value
    }
}

// The width that symbols of so many bits need.
pub fn needed_width(bits: usize) -> usize
    ensures { result ≡ needed_width bits }
{
    bits.max(3)
}

// Whether the scrambler has the width that the plan needs, and a value for every symbol of a frame.
pub fn fits<S: Scrambler>(plan: &Plan, scrambler: &mut S) -> bool
    ensures answer { result ≡ scheme_fits (plan_scheme plan.now) (S.meaning scrambler.old) }
    ensures kept { S.meaning scrambler.new ≡ S.meaning scrambler.old }
{
    let width = scrambler.width();
    let reach = scrambler.reach();
    width == needed_width(plan.parts().symbol_bits) && plan.parts().frame_length <= reach
}
