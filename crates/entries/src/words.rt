// The words of a line, one after the other.
ghost use Rattle.std.specs.Prelude.{◌≡◌, ℕ, ◌<◌, ◌≤◌, ◌≢◌, true, false, [], ◌∷◌, length, MatchOption, List, slice_index};
ghost use Rattle.entries.specs.Words.{white, words};

// Whether a byte is white space.
fn is_white(byte: u8) -> bool
    ensures { result ≡ white byte }
{
    matches!(byte, b' ' | b'\t' | b'\n' | 0x0C | b'\r')
}

// How many bytes of white space a text begins with.
fn gap(text: &[u8]) -> usize
    ensures within { result ≤ length text.now }
    ensures before { (k : ℕ) → k < result → white (slice_index text.now k) ≡ true }
    ensures after { result < length text.now → white (slice_index text.now result) ≡ false }
{
    for (i, byte) in text.iter().enumerate() {
        if !is_white(*byte) {
            return i;
        }
    }
    text.len()
}

// How many bytes that are no white space a text begins with.
fn word_length(text: &[u8]) -> usize
    ensures within { result ≤ length text.now }
    ensures before { (k : ℕ) → k < result → white (slice_index text.now k) ≡ false }
    ensures after { result < length text.now → white (slice_index text.now result) ≡ true }
{
    for (i, byte) in text.iter().enumerate() {
        if is_white(*byte) {
            return i;
        }
    }
    text.len()
}

// The first word of a text, and what follows it.
pub(crate) fn next_word(text: &[u8]) -> Option<(&[u8], &[u8])>
    ensures { MatchOption result (words text.now ≡ []) (λ r. words text.now ≡ r.0.now ∷ words r.1.now) }
{
    let text = &text[gap(text)..];
    if text.is_empty() {
        return None;
    }
    Some(text.split_at(word_length(text)))
}

// The two words of a text that has just two.
pub(crate) fn two_words(text: &[u8]) -> Option<(&[u8], &[u8])>
    ensures { MatchOption result ((a b : List ℕ) → words text.now ≢ a ∷ b ∷ []) (λ r. words text.now ≡ r.0.now ∷ r.1.now ∷ []) }
{
    let (first, rest) = next_word(text)?;
    let second = one_word(rest)?;
    Some((first, second))
}

// The word of a text that has just one.
pub(crate) fn one_word(text: &[u8]) -> Option<&[u8]>
    ensures { MatchOption result ((a : List ℕ) → words text.now ≢ a ∷ []) (λ r. words text.now ≡ r.now ∷ []) }
{
    let (word, rest) = next_word(text)?;
    match next_word(rest) {
        None => Some(word),
        Some(_) => None,
    }
}
