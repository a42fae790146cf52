// How a register is made, and how it draws its values.
ghost use Rattle.std.specs.Prelude.{◌≡◌, ◌*◌, ◌<◌, IfOk};
ghost use Rattle.plan.specs.Faults.{chain_number, outcome};
ghost use Rattle.scrambler.specs.Meanings.{register_meaning};
ghost use Rattle.scrambler.specs.Questions.{width_fits, making_answer};
ghost use Rattle.scrambler.specs.Shifts.{fresh, shift, shifts, state_after, drawn_values};
ghost use Rattle.scrambler.specs.Bounds.{drawn_below};

use crate::register::Register;
use crate::scrambler::Scrambler;
use crate::width::Width;
use plan::ChainFault;

// How many values a register reaches.
const REACH: usize = 4096;

impl Register {
    // The register that draws values of this width, where the width fits.
    pub fn new(width: usize) -> Result<Register, ChainFault>
        ensures answer { outcome chain_number result ≡ making_answer (width_fits width) }
        ensures made { IfOk result (λ m. register_meaning m ≡ record { width = width; values = drawn_values width }) }
    {
        Ok(Register {
            width: Width::new(width)?,
            place: 0,
            state: 1,
        })
    }

    // The register at a place: shifted on from where it stands, or from the load where it stands past the place.
    fn state_at(&self, place: usize) -> u16
        requires { place < 4096 }
        ensures { result ≡ state_after (place * self.now.width.bits) }
    {
        let width = self.width.bits();
        if place < self.place {
            shifted(1, place * width)
        } else {
            shifted(self.state, (place - self.place) * width)
        }
    }
}

// The bit that a shift brings in.
fn fresh_bit(state: u16) -> u16
    ensures { result ≡ fresh state }
{
    (state >> 8 ^ state >> 4) & 1
}

// The register after one shift.
fn shifted_once(state: u16) -> u16
    requires { state < 512 }
    ensures { result ≡ shift state }
{
    (state << 1 | fresh_bit(state)) & 511
}

// The register after some shifts.
fn shifted(state: u16, count: usize) -> u16
    requires { state < 512 }
    ensures { result ≡ shifts count state }
{
    let mut now = state;
    for _ in 0..count {
        now = shifted_once(now);
    }
    now
}

impl Scrambler for Register {
    ghost meaning = { register_meaning };

    ghost bounded = { λ s. drawn_below s.width.bits };

    fn width(&mut self) -> usize {
        self.width.bits()
    }

    fn reach(&mut self) -> usize {
        REACH
    }

    // Asked in rising order, each place costs the shifts from the one before.
    fn value(&mut self, place: usize) -> Option<u8> {
        if place >= REACH {
            return None;
        }
        let state = self.state_at(place);
        self.place = place;
        self.state = state;
        Some(self.width.low_bits(state))
    }
}
