// The laws of the register's bits.
ghost use Rattle.scrambler.specs.Shifts.{StartsWithOne, ObeysPolynomial, HasPeriod511};

// The register starts with the value 1, its bits obey x^9 + x^4 + 1, and its states have the period 511.
pub fn register_holds()
    ensures first { StartsWithOne }
    ensures polynomial { ObeysPolynomial }
    ensures period { HasPeriod511 }
{}
