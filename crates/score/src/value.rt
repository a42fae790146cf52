// What a value says of a bit.
ghost use Rattle.std.specs.Prelude.{◌≡◌};
ghost use Rattle.score.specs.Values.{contradicted, weight};

// Whether the value says the other bit: a positive one says 0, a negative one 1, zero nothing.
pub(crate) fn is_contradicted(value: i16, bit: bool) -> bool
    ensures { result ≡ contradicted value bit }
{
    if bit { value > 0 } else { value < 0 }
}

// The value's size where it is contradicted, else 0: how far the value goes towards the other bit.
pub(crate) fn weight(value: i16, bit: bool) -> u16
    ensures { result ≡ weight value bit }
{
    let other = if bit {
        i32::from(value)
    } else {
        -i32::from(value)
    };
    other.max(0) as u16
}
