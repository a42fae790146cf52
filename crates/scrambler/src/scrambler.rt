// A scrambler by its meaning.
ghost use Rattle.std.specs.Prelude.{◌≡◌};
ghost use Rattle.scrambler.specs.Meaning.{Meaning, reach, value_at, Bounded};

// A question may change a scrambler inside, and never its meaning.
pub trait Scrambler {
    ghost meaning: { Self → Meaning };

    // The bits of a value.
    fn width(&mut self) -> usize
        ensures value { result ≡ (meaning self.old).width }
        ensures kept { meaning self.new ≡ meaning self.old };

    // How many places have a value.
    fn reach(&mut self) -> usize
        ensures value { result ≡ reach (meaning self.old) }
        ensures kept { meaning self.new ≡ meaning self.old };

    // The value at a place, or none from the reach on.
    fn value(&mut self, place: usize) -> Option<u8>
        ensures value { result ≡ value_at (meaning self.old) place }
        ensures kept { meaning self.new ≡ meaning self.old };

    ghost bounded: { (s : Self) → Bounded (meaning s) };
}
