// A kind of score: what it means, the laws that it keeps, and its calls.
ghost use Rattle.std.specs.Prelude.{◌≡◌};
ghost use Rattle.score.specs.Scale.{Scale, Lawful};

pub trait Kind {
    type Score: Copy;

    ghost scale: { Self → Scale Self.Score };

    // The score of a block against nothing.
    fn start(&self) -> Self::Score
        ensures { result ≡ (scale self.now).start };

    // The score once a value is compared with the bit that a block sends there.
    fn extend(&self, score: Self::Score, value: i16, bit: bool) -> Self::Score
        ensures { result ≡ (scale self.now).extended score value bit };

    // Whether the first score is no worse than the second.
    fn no_worse(&self, a: Self::Score, b: Self::Score) -> bool
        ensures { result ≡ (scale self.now).no_worse a b };

    ghost lawful: { (k : Self) → Lawful (scale k) };
}
