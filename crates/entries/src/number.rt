// Numbers in decimal digits.
ghost use Rattle.std.specs.Prelude.{◌≡◌, ℕ, ◌^◌, ◌<◌, ◌≤◌, ◌≢◌, ◌∷◌, ℤ, pos, negsuc, ◌≤ℤ◌, neg_ℤ, MatchOption};
ghost use Rattle.std.specs.Fmt.{decimal, signed_decimal};
ghost use Rattle.entries.specs.Words.{canonical};

// Whether a word begins as a number does: it is 0, or its first digit is another.
fn is_canonical(word: &[u8]) -> bool
    ensures { result ≡ canonical word.now }
{
    match word {
        [b'0', rest @ ..] => rest.is_empty(),
        [digit, ..] => matches!(digit, b'1'..=b'9'),
        [] => false,
    }
}

// The number that a word writes, without zeros in front.
pub(crate) fn read_number(word: &[u8]) -> Option<u32>
    ensures { MatchOption result ((n : ℕ) → n < 2 ^ 32 → decimal n ≢ word.now) (λ n. (n < 2 ^ 32) × (decimal n ≡ word.now)) }
{
    if !is_canonical(word) {
        return None;
    }
    match str::from_utf8(word) {
        Ok(text) => text.parse::<u32>().ok(),
        Err(_) => None,
    }
}

// The index that a word writes.
pub(crate) fn read_index(word: &[u8]) -> Option<u8>
    ensures { MatchOption result ((n : ℕ) → n < 2 ^ 8 → decimal n ≢ word.now) (λ n. (n < 2 ^ 8) × (decimal n ≡ word.now)) }
{
    match read_number(word)? {
        index @ 0..=0xFF => Some(index as u8),
        _ => None,
    }
}

// The weight that a word writes.
pub(crate) fn read_weight(word: &[u8]) -> Option<u16>
    ensures { MatchOption result ((n : ℕ) → n < 2 ^ 16 → decimal n ≢ word.now) (λ n. (n < 2 ^ 16) × (decimal n ≡ word.now)) }
{
    match read_number(word)? {
        weight @ 0..=0xFFFF => Some(weight as u16),
        _ => None,
    }
}

// The value below 0 whose size a word writes.
fn read_negative(word: &[u8]) -> Option<i16>
    ensures { MatchOption result ((n : ℕ) → 1 ≤ n → n ≤ 32768 → decimal n ≢ word.now) (λ z. (negsuc 32767 ≤ℤ z) × (z ≤ℤ pos 32767) × (signed_decimal z ≡ 45 ∷ word.now)) }
{
    match read_number(word)? {
        size @ 1..=32768 => Some((-i64::from(size)) as i16),
        _ => None,
    }
}

// The value from 0 on that a word writes.
fn read_positive(word: &[u8]) -> Option<i16>
    ensures { MatchOption result ((n : ℕ) → n ≤ 32767 → decimal n ≢ word.now) (λ z. (negsuc 32767 ≤ℤ z) × (z ≤ℤ pos 32767) × (signed_decimal z ≡ word.now)) }
{
    match read_number(word)? {
        size @ 0..=32767 => Some(size as i16),
        _ => None,
    }
}

// The number that a word writes, with a minus sign where it is negative.
pub(crate) fn read_value(word: &[u8]) -> Option<i16>
    ensures { MatchOption result ((z : ℤ) → negsuc 32767 ≤ℤ z → z ≤ℤ pos 32767 → signed_decimal z ≢ word.now) (λ z. (negsuc 32767 ≤ℤ z) × (z ≤ℤ pos 32767) × (signed_decimal z ≡ word.now)) }
{
    if let [b'-', size @ ..] = word {
        return read_negative(size);
    }
    read_positive(word)
}
