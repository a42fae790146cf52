// From locations to symbols, and back to bits.
ghost use Rattle.std.specs.Prelude.{◌≡◌, ◌+◌, ◌*◌, ◌/◌, ◌^◌, ◌<◌, ◌≤◌, length, IfOk, IfErr, is_ok, ◌==◌, nat_lt, position, slice_index};
ghost use Rattle.code.specs.Answers.{fetch_answer};
ghost use Rattle.code.specs.Laws.{Inverts};
ghost use Rattle.code.specs.Mapping.{phases as phases_of, symbol_of, number_of, symbol_at};
ghost use Rattle.code.specs.Numbers.{num, read};
ghost use Rattle.plan.specs.Faults.{chain_number, outcome};
ghost use Rattle.plan.specs.declared.fault.ChainFault.TheVariants.{Place};
ghost use Rattle.plan.specs.Plans.{plan_scheme};
ghost use Rattle.plan.specs.Scheme.{sent_length};

use crate::numbers::append;
use plan::{ChainFault, Plan};
use std::ops::Range;

// The symbols of 1, 2 or 3 bits, in the order of the numbers that the bits write.
fn phases(bits: usize) -> &'static [u8]
    ensures value { result.now ≡ phases_of bits }
    ensures few { length result.now ≤ 8 }
{
    match bits {
        1 => &[0, 4],
        2 => &[0, 2, 6, 4],
        _ => &[1, 0, 2, 3, 6, 7, 5, 4],
    }
}

// The symbol of bits that write this number.
pub fn symbol_for(plan: &Plan, number: u8) -> u8
    ensures { result ≡ symbol_of (plan_scheme plan.now).bits number }
{
    let bits = plan.parts().symbol_bits;
    if bits > 3 {
        return number;
    }
    phases(bits).get(usize::from(number)).copied().unwrap_or(0)
}

// The number that a symbol's bits write, or none where no bits give this symbol.
pub fn number_for(plan: &Plan, symbol: u8) -> Option<u8>
    ensures value { result ≡ number_of (plan_scheme plan.now).bits symbol }
    ensures inverts { Inverts (plan_scheme plan.now).bits }
{
    let bits = plan.parts().symbol_bits;
    if bits > 3 {
        return has_bits(symbol, bits).then_some(symbol);
    }
    let place = place_in(phases(bits), symbol)?;
    Some(place as u8)
}

// Whether so many bits can write this number.
pub fn has_bits(number: u8, bits: usize) -> bool
    ensures { result ≡ nat_lt number (2 ^ bits) }
{
    bits >= 8 || usize::from(number) < 1 << bits
}

// The first place at which the symbol stands.
fn place_in(list: &[u8], symbol: u8) -> Option<usize>
    ensures { result ≡ position (λ x. x == symbol) list.now }
{
    list.iter().position(|phase| *phase == symbol)
}

// The symbol that takes the locations of this place, the first fetched on the left.
pub fn symbol_at(plan: &Plan, array: &[bool], place: usize) -> Result<u8, ChainFault>
    ensures answer { outcome chain_number result ≡ fetch_answer (plan_scheme plan.now) (length array.now) place }
    ensures made { IfOk result (λ y. y ≡ symbol_at (plan_scheme plan.now) array.now place) }
{
    if array.len() < plan.sent_length() {
        return Err(ChainFault::TooShort);
    }
    let locations = symbol_locations(plan, place)?;
    Ok(symbol_for(plan, as_number(&array[locations])))
}

// The locations of the symbol at this place, where one is sent there.
pub fn symbol_locations(plan: &Plan, place: usize) -> Result<Range<usize>, ChainFault>
    ensures asked { is_ok result ≡ nat_lt place (sent_length (plan_scheme plan.now) / (plan_scheme plan.now).bits) }
    ensures run { IfOk result (λ r. (r.start ≡ place * (plan_scheme plan.now).bits) × (r.end ≡ r.start + (plan_scheme plan.now).bits) × (r.end ≤ sent_length (plan_scheme plan.now))) }
    ensures refused { IfErr result (λ fault. fault ≡ Place) }
{
    if place >= plan.symbols() {
        return Err(ChainFault::Place);
    }
    let bits = plan.parts().symbol_bits;
    let first = place * bits;
    Ok(first..first + bits)
}

// The number that these bits write, the first highest.
fn as_number(bits: &[bool]) -> u8
    requires { length bits.now ≤ 8 }
    ensures { result ≡ num (read bits.now) (length bits.now) 0 }
{
    bits.iter().copied().fold(0, append) as u8
}
