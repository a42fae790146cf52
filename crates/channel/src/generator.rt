// A seeded generator of 64-bit numbers.
ghost use Rattle.std.specs.Prelude.{◌≡◌, ◌/◌, ◌%◌, ◌^◌, length, if◌then◌else◌, nat_eq};
ghost use Rattle.channel.specs.Drawing.{stepped, state_after, mixed, drawn, drawn_bits, reordered};
ghost use Rattle.channel.specs.Fractions.{fraction, normal};
ghost use Rattle.std.specs.List.Sorted.{IsPermutation};

use std::num::nearest_u64_to_f64;

// A unit of 64 bits, as a part of 1.
const UNIT: f64 = 5.421010862427522e-20;

// The mean of twelve fractions.
const MEAN: f64 = 6.0;

#[derive(Clone, Copy)]
pub struct Generator {
    pub state: u64,
}

// Spreads each bit of a number over many.
fn mix(x: u64) -> u64
    ensures { result ≡ mixed x }
{
    let y = (x ^ x >> 30).wrapping_mul(0xbf58_476d_1ce4_e5b9);
    let z = (y ^ y >> 27).wrapping_mul(0x94d0_49bb_1331_11eb);
    z ^ z >> 31
}

impl Generator {
    // A generator that draws by this seed.
    pub fn new(seed: u64) -> Generator
        ensures { result.state ≡ seed }
    {
        Generator { state: seed }
    }

    // The next number.
    pub fn draw(&mut self) -> u64
        ensures value { result ≡ drawn self.old.state }
        ensures after { self.new.state ≡ stepped self.old.state }
    {
        self.state = self.state.wrapping_add(0x9e37_79b9_7f4a_7c15);
        mix(self.state)
    }

    // The highest bit of the next number.
    pub fn draw_bit(&mut self) -> u8
        ensures value { result ≡ drawn self.old.state / 2 ^ 63 }
        ensures after { self.new.state ≡ stepped self.old.state }
    {
        (self.draw() >> 63) as u8
    }

    // A bit into each place.
    pub fn draw_bits(&mut self, out: &mut [u8])
        ensures bits { out.new ≡ drawn_bits self.old.state (length out.old) }
        ensures after { self.new.state ≡ state_after (length out.old) self.old.state }
    {
        for place in out.iter_mut() {
            *place = self.draw_bit();
        }
    }

    // A place below the bound, and 0 where nothing is below it.
    pub fn draw_below(&mut self, bound: usize) -> usize
        ensures value { result ≡ (if nat_eq bound 0 then 0 else drawn self.old.state % bound) }
        ensures after { self.new.state ≡ stepped self.old.state }
    {
        let number = self.draw() as usize;
        if bound == 0 { 0 } else { number % bound }
    }

    // The same places in drawn order: each is exchanged with one from there on.
    pub fn shuffle(&mut self, places: &mut [usize])
        ensures order { places.new ≡ reordered self.old.state places.old }
        ensures same { IsPermutation places.old places.new }
        ensures after { self.new.state ≡ state_after (length places.old) self.old.state }
    {
        // by index, since an exchange names both of its places by number
        for i in 0..places.len() {
            let other = i + self.draw_below(places.len() - i);
            places.swap(i, other);
        }
    }

    // A fraction from 0 to 1, all alike.
    pub fn draw_fraction(&mut self) -> f64
        ensures value { result ≡ fraction self.old.state }
        ensures after { self.new.state ≡ stepped self.old.state }
    {
        nearest_u64_to_f64(self.draw()) * UNIT
    }

    // A nearly normal number, of mean 0 and deviation 1: twelve fractions less six.
    pub fn draw_normal(&mut self) -> f64
        ensures value { result ≡ normal self.old.state }
        ensures after { self.new.state ≡ state_after 12 self.old.state }
    {
        let mut sum = -MEAN;
        for _ in 0..12u8 {
            sum += self.draw_fraction();
        }
        sum
    }
}
