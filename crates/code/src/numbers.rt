// Numbers, and the bits that write them.
ghost use Rattle.std.specs.Prelude.{◌≡◌, ◌+◌, ◌*◌, ◌%◌};
ghost use Rattle.code.specs.Numbers.{digit};

// The number with one more bit at its lowest place. Its highest bit is lost.
pub(crate) fn append(number: u16, bit: bool) -> u16
    ensures { result ≡ 2 * number % 65536 + digit bit }
{
    (number << 1) + u16::from(bit)
}
