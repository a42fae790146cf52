// The code rates of the standard's waveforms.
ghost use Rattle.std.specs.Prelude.{◌≡◌, Some};
ghost use Rattle.rows.specs.Ratios.{ratio, fraction};

use std::fmt;

#[derive(Clone, Copy, Debug, PartialEq, Eq)]
pub enum Rate {
    NineTenths,
    EightNinths,
    FiveSixths,
    FourFifths,
    ThreeQuarters,
    TwoThirds,
    NineSixteenths,
    Half,
    Third,
    Quarter,
    Sixth,
    Eighth,
    Twelfth,
    Sixteenth,
}

impl Rate {
    // For so many bits of the block, so many are sent.
    fn ratio(self) -> (u8, u8)
        ensures { result ≡ ratio self }
    {
        match self {
            Rate::NineTenths => (9, 10),
            Rate::EightNinths => (8, 9),
            Rate::FiveSixths => (5, 6),
            Rate::FourFifths => (4, 5),
            Rate::ThreeQuarters => (3, 4),
            Rate::TwoThirds => (2, 3),
            Rate::NineSixteenths => (9, 16),
            Rate::Half => (1, 2),
            Rate::Third => (1, 3),
            Rate::Quarter => (1, 4),
            Rate::Sixth => (1, 6),
            Rate::Eighth => (1, 8),
            Rate::Twelfth => (1, 12),
            Rate::Sixteenth => (1, 16),
        }
    }
}

impl fmt::Display for Rate {
    ghost output = { λ rate. Some (fraction rate) };

    fn fmt<W: fmt::Write>(&self, f: &mut fmt::Formatter<W>) -> fmt::Result {
        let (bits, sent) = self.ratio();
        write!(f, "{bits}/{sent}")
    }
}
