// How a rate is had from the mother code: each pair of coded bits is repeated, and a mask then says what is sent.
ghost use Rattle.std.specs.Prelude.{◌≡◌, ◌<◌, ◌≤◌, length};

use crate::rate::Rate;

// The two rows of a mask stand as the standard prints them, one below the other, so that they can be compared.
#[derive(Clone, Copy)]
pub(crate) struct Pattern {
    // for each repeated pair, in the order of time: '1' where its first bit is sent
    pub(crate) first: &'static [u8],
    // the same for its second bit
    pub(crate) second: &'static [u8],
    // how often each pair comes
    pub(crate) repeats: usize,
    ghost repeated: { 0 < repeats },
    ghost narrow: { length first.now ≤ 12 },
    ghost paired: { length second.now ≡ length first.now },
}

impl Pattern {
    ghost use Rattle.rows.specs.Patterns.{seven, nine, puncture, period};
    ghost use Rattle.rows.specs.Masks.{puncture_of};

    // The two rows of a mask, laid over pairs that come so often each.
    fn mask<const N: usize>(
        first: &'static [u8; N],
        second: &'static [u8; N],
        repeats: usize,
    ) -> Pattern
        requires { (0 < repeats) × (N ≤ 12) }
        ensures { puncture_of result ≡ record { first = first.now; second = second.now; repeats = repeats } }
    {
        Pattern {
            first,
            second,
            repeats,
        }
    }

    // The patterns of constraint length 7.
    fn seven(rate: Rate) -> Pattern
        ensures { puncture_of result ≡ seven rate }
    {
        match rate {
            Rate::NineTenths => Pattern::mask(b"111101110", b"100010001", 1),
            Rate::EightNinths => Pattern::mask(b"11110100", b"10001011", 1),
            Rate::FiveSixths => Pattern::mask(b"11010", b"10101", 1),
            Rate::FourFifths => Pattern::mask(b"1111", b"1000", 1),
            Rate::ThreeQuarters => Pattern::mask(b"110", b"101", 1),
            Rate::TwoThirds => Pattern::mask(b"11", b"10", 1),
            Rate::NineSixteenths => Pattern::mask(b"111101111", b"111111011", 1),
            Rate::Half => Pattern::mask(b"1", b"1", 1),
            Rate::Third => Pattern::mask(b"11", b"10", 2),
            Rate::Quarter => Pattern::mask(b"11", b"11", 2),
            Rate::Sixth => Pattern::mask(b"111", b"111", 3),
            Rate::Eighth => Pattern::mask(b"1111", b"1111", 4),
            Rate::Twelfth => Pattern::mask(b"111111", b"111111", 6),
            Rate::Sixteenth => Pattern::mask(b"11111111", b"11111111", 8),
        }
    }

    // The patterns of constraint length 9: five masks differ from those of 7.
    fn nine(rate: Rate) -> Pattern
        ensures { puncture_of result ≡ nine rate }
    {
        match rate {
            Rate::NineTenths => Pattern::mask(b"111000101", b"100111010", 1),
            Rate::EightNinths => Pattern::mask(b"11100000", b"10011111", 1),
            Rate::FiveSixths => Pattern::mask(b"10110", b"11001", 1),
            Rate::FourFifths => Pattern::mask(b"1101", b"1010", 1),
            Rate::ThreeQuarters => Pattern::mask(b"111", b"100", 1),
            _ => Pattern::seven(rate),
        }
    }

    // The pattern of a rate for constraint length 7, else for 9. The length is a number, as the parts of a plan have it.
    pub(crate) fn of(rate: Rate, constraint: usize) -> Pattern
        ensures { puncture_of result ≡ puncture rate constraint }
    {
        if constraint == 7 {
            Pattern::seven(rate)
        } else {
            Pattern::nine(rate)
        }
    }

    // How many pairs the mask covers.
    pub(crate) fn period(self) -> usize
        ensures { result ≡ period (puncture_of self) }
    {
        self.first.len() / self.repeats
    }
}
