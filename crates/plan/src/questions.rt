// The eight questions, each as a test. A later one may rest on the yes to an earlier one.
ghost use Rattle.std.specs.Prelude.{◌≡◌, ◌*◌, ◌/◌, ◌<◌, ◌≤◌, ◌&&◌, ◌||◌, length, ◌==◌, nat_eq};
ghost use Rattle.plan.specs.Questions.{within, divides, all_below, coprime};

// Whether a code of this constraint length is known.
pub fn constraint_fits(constraint: usize) -> bool
    ensures { result ≡ (constraint == 7 || constraint == 9) }
{
    matches!(constraint, 7 | 9)
}

pub(crate) fn is_multiple(n: usize, divisor: usize) -> bool
    requires { 0 < divisor }
    ensures { result ≡ divides divisor n }
{
    n % divisor == 0
}

pub(crate) fn period_fits(period: usize, entries: usize) -> bool
    ensures { result ≡ (within 1 12 period && within 1 32 entries) }
{
    (1..=12).contains(&period) && (1..=32).contains(&entries)
}

// Whether every byte is below the bound.
pub fn all_below(bytes: &[u8], bound: usize) -> bool
    ensures { result ≡ all_below bound bytes.now }
{
    bytes.iter().all(|byte| usize::from(*byte) < bound)
}

pub(crate) fn block_fits(block_length: usize, period: usize) -> bool
    requires { 0 < period }
    ensures { result ≡ (within 9 1843200 block_length && divides period block_length) }
{
    (9..=1_843_200).contains(&block_length) && is_multiple(block_length, period)
}

pub(crate) fn bits_fit(symbol_bits: usize) -> bool
    ensures { result ≡ (within 1 6 symbol_bits || nat_eq symbol_bits 8) }
{
    matches!(symbol_bits, 1..=6 | 8)
}

pub(crate) fn frame_fits(frame_length: usize, symbol_bits: usize, sent_length: usize) -> bool
    requires { (0 < symbol_bits) × (symbol_bits ≤ 8) }
    ensures { result ≡ (within 1 4096 frame_length && divides (symbol_bits * frame_length) sent_length) }
{
    (1..=4096).contains(&frame_length) && is_multiple(sent_length, symbol_bits * frame_length)
}

// Whether a and n share no divisor above 1, by Euclid's rule; the library has no greatest common divisor.
pub(crate) fn is_coprime(a: usize, n: usize) -> bool
    requires { 0 < n }
    ensures { result ≡ coprime a n }
{
    let mut x = a;
    let mut y = n;
    while y != 0 {
        let rest = x % y;
        x = y;
        y = rest;
    }
    x == 1
}

pub(crate) fn increment_fits(increment: usize, sent_length: usize) -> bool
    ensures { result ≡ (within 1 sent_length increment && coprime increment sent_length) }
{
    (1..=sent_length).contains(&increment) && is_coprime(increment, sent_length)
}
