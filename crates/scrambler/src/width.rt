// The width of a value: how many bits it has.
ghost use Rattle.std.specs.Prelude.{◌≡◌, ◌%◌, ◌^◌, true, IfOk};
ghost use Rattle.plan.specs.Faults.{chain_number, outcome};
ghost use Rattle.scrambler.specs.Questions.{width_fits, making_answer};

use plan::ChainFault;

#[derive(Clone, Copy)]
pub(crate) struct Width {
    bits: usize,
    ghost fits: { width_fits bits ≡ true },
}

impl Width {
    // The width of this many bits, where a value may have so many.
    pub(crate) fn new(bits: usize) -> Result<Width, ChainFault>
        ensures answer { outcome chain_number result ≡ making_answer (width_fits bits) }
        ensures made { IfOk result (λ w. w.bits ≡ bits) }
    {
        match bits {
            3..=6 | 8 => Ok(Width { bits }),
            _ => Err(ChainFault::Scrambler),
        }
    }

    pub(crate) fn bits(self) -> usize
        ensures { result ≡ self.bits }
    {
        self.bits
    }

    // How many values have at most this many bits.
    pub(crate) fn values(self) -> usize
        ensures { result ≡ 2 ^ self.bits }
    {
        1 << self.bits
    }

    // The rightmost bits.
    pub(crate) fn low_bits(self, state: u16) -> u8
        ensures { result ≡ state % 2 ^ self.bits }
    {
        (state & ((1 << self.bits) - 1)) as u8
    }
}
