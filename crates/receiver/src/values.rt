// Setting the values of a run of locations.
ghost use Rattle.std.specs.Prelude.{◌≡◌, ◌<◌, ◌≤◌, map, length};
ghost use Rattle.code.specs.Numbers.{bit_of};
ghost use Rattle.receiver.specs.Values.{signed};
ghost use Rattle.std.specs.List.{range_with_len};

// Sets the values of a symbol's locations by the bits of its number.
pub(crate) fn set_bits(run: &mut [i16], number: u8, weight: u16)
    requires { (length run.old ≤ 8) × (weight ≤ 32767) }
    ensures { let bits = length run.old in run.new ≡ map (λ i. signed weight (bit_of bits number i)) (range_with_len 0 bits) }
{
    let bits = run.len();
    for (i, value) in run.iter_mut().enumerate() {
        *value = value_for(weight, bit_at(number, bits, i));
    }
}

// Plus the weight for bit 0, minus the weight for bit 1.
fn value_for(weight: u16, bit: bool) -> i16
    requires { weight ≤ 32767 }
    ensures { result ≡ signed weight bit }
{
    let value = weight as i16;
    if bit { -value } else { value }
}

// Bit i of a number of so many bits, the first highest.
// Not shared with the search: a function for both would be public, and so would have to answer for every `bits` and `i`.
fn bit_at(number: u8, bits: usize, i: usize) -> bool
    requires { (i < bits) × (bits ≤ 8) }
    ensures { result ≡ bit_of bits number i }
{
    (number >> (bits - 1 - i)) % 2 == 1
}
