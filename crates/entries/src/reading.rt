// A line, read as an entry.
ghost use Rattle.std.specs.Prelude.{◌≡◌, ℕ, ◌∷◌, ◌≢◌, ◌↔◌, IsTrue, MatchOption, codes};
ghost use Rattle.entries.specs.Entries.{InRange, entry_words};
ghost use Rattle.entries.specs.declared.entry.Entry.TheVariants.{Hear};
ghost use Rattle.entries.specs.Readings.{LineReading, EntryReading, Named};
ghost use Rattle.entries.specs.Words.{words};

use crate::entry::Entry;
use crate::number::*;
use crate::words::{next_word, one_word, two_words};
use lines::LineFault;

// The most characters that a line may have.
const LONGEST: usize = 2080;

// Whether a word is this text.
fn is_text(word: &[u8], text: &str) -> bool
    ensures { IsTrue result ↔ (word.now ≡ text.now) }
{
    word == text.as_bytes()
}

// The entry of a symbol that is heard, by its place and the two words after it.
fn read_hear(place: &[u8], rest: &[u8]) -> Option<Entry>
    ensures { MatchOption result ((p i w : ℕ) → InRange (Hear p i w) → place.now ∷ words rest.now ≢ entry_words (Hear p i w)) (λ e. Named (place.now ∷ words rest.now) e) }
{
    let (index, weight) = two_words(rest)?;
    Some(Entry::Hear {
        place: read_number(place)?,
        index: read_index(index)?,
        weight: read_weight(weight)?,
    })
}

// The entry that the words after "note" write.
fn read_note(rest: &[u8]) -> Option<Entry>
    ensures { EntryReading (codes "note" ∷ words rest.now) result }
{
    let (location, value) = two_words(rest)?;
    Some(Entry::Note {
        location: read_number(location)?,
        value: read_value(value)?,
    })
}

// The entry that the word after "blank" writes.
fn read_blank(rest: &[u8]) -> Option<Entry>
    ensures { EntryReading (codes "blank" ∷ words rest.now) result }
{
    let word = one_word(rest)?;
    Some(Entry::Blank {
        place: read_number(word)?,
    })
}

// The entry of a line that is "look" alone.
fn read_look(rest: &[u8]) -> Option<Entry>
    ensures { EntryReading (codes "look" ∷ words rest.now) result }
{
    match next_word(rest) {
        None => Some(Entry::Look),
        Some(_) => None,
    }
}

// The entry whose words are these: the first, and those of what follows it.
fn read_words(word: &[u8], rest: &[u8]) -> Option<Entry>
    ensures { EntryReading (word.now ∷ words rest.now) result }
{
    if is_text(word, "note") {
        return read_note(rest);
    }
    if is_text(word, "blank") {
        return read_blank(rest);
    }
    if is_text(word, "look") {
        return read_look(rest);
    }
    read_hear(word, rest)
}

// The entry whose line this is, or none where there is nothing to do: in an empty line, and in a comment.
pub fn read_entry(line: &[u8]) -> Result<Option<Entry>, LineFault>
    ensures { LineReading line.now result }
{
    if line.len() > LONGEST {
        return Err(LineFault::Form);
    }
    let Some((word, rest)) = next_word(line) else {
        return Ok(None);
    };
    if let [b'#', ..] = word {
        return Ok(None);
    }
    match read_words(word, rest) {
        Some(entry) => Ok(Some(entry)),
        None => Err(LineFault::Form),
    }
}
