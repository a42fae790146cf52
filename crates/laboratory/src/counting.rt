// The errors of shown blocks against sent ones, read side by side.
ghost use Rattle.std.specs.Prelude.{◌≡◌, ℕ, ◌<◌, ◌&&◌, ◌==◌, not, List, [], ◌∷◌, ◌++◌, length, true, false, Some, IfOk, MatchResult};
ghost use Rattle.bits_text.specs.Blocks.{blocks};
ghost use Rattle.comparison.specs.Comparing.{nothing, compared};
ghost use Rattle.laboratory.specs.Counting.{Holds, LineTaken, left, steps_left, Stands, Stepped, Advanced, Behind, Reads, Clear, ReadRefused, CountRefused};

use crate::trouble::Trouble;
use bits_text::BitsReader;
use comparison::Comparison;
use std::alloc::Global;
use std::io::{Bytes, Read};

// The block of the line in hand.
#[derive(Drop)]
struct BlockLine {
    // what the text is called
    name: &'static str,
    reader: BitsReader,
    bits: Vec<u8>,
}

impl BlockLine {
    // The next byte begins a line.
    fn begin(&mut self)
        ensures start { Holds self.new [] }
        ensures clear { self.new.reader.in_comment ≡ false }
        ensures line { self.new.reader.line ≡ self.old.reader.line }
        ensures name { self.new.name.now ≡ self.old.name.now }
    {
        self.reader.begin_line();
        self.bits.clear();
    }

    // Whether a byte ends a line that has bits.
    fn ends_block(&self, byte: u8) -> bool
        ensures { result ≡ (byte == 10 && not (length self.now.bits.items == 0)) }
    {
        byte == b'\n' && !self.bits.is_empty()
    }

    // Goes past a byte. True where it ends a line that has bits.
    fn take(&mut self, byte: u8) -> Result<bool, Trouble>
        ensures known { (line : List ℕ) → Holds self.old line → LineTaken line byte self.new result }
        ensures read { (text : List ℕ) → Behind self.old.reader text → MatchResult result (λ _. Behind self.new.reader (text ++ byte ∷ []))
            (λ e. (after : List ℕ) → ReadRefused self.old.name.now (text ++ byte ∷ after) e) }
        ensures clear { (text : List ℕ) → Behind self.old.reader text → IfOk result (λ ends. ends ≡ true → self.new.reader.in_comment ≡ false) }
        ensures name { self.new.name.now ≡ self.old.name.now }
    {
        match self.reader.take(byte) {
            Ok(Some(bit)) => {
                self.bits.push(bit)?;
                Ok(false)
            }
            Ok(None) => Ok(self.ends_block(byte)),
            Err(stray) => Err(Trouble::Bits {
                text: self.name,
                stray,
            }),
        }
    }
}

// The blocks of a text, a line each.
#[derive(Drop)]
struct Blocks<R: Read> {
    bytes: Bytes<R>,
    // whether the text has ended
    ended: bool,
    line: BlockLine,
}

impl<R: Read + Drop> Blocks<R> {
    fn new(heap: Global, text: R, name: &'static str) -> Blocks<R>
        ensures left { left R.remaining result ≡ R.remaining text }
        ensures read { (xs : List ℕ) → R.remaining text ≡ Some xs → Reads R.remaining result xs }
        ensures clear { Clear result }
        ensures name { result.line.name.now ≡ name.now }
    {
        Blocks {
            bytes: text.bytes(),
            ended: false,
            line: BlockLine {
                name,
                reader: BitsReader::new(),
                bits: Vec::new(heap),
            },
        }
    }

    // Goes past a byte, or sees the end. True where it ends a line that has bits.
    fn step(&mut self) -> Result<bool, Trouble>
        requires { self.old.ended ≡ false }
        ensures known { (line xs : List ℕ) → Stands R.remaining self.old line xs → Stepped R.remaining line xs self.new result }
        ensures fewer { IfOk result (λ _. steps_left self.new < steps_left self.old) }
        ensures read { (whole : List ℕ) → Reads R.remaining self.old whole → MatchResult result (λ ends. Reads R.remaining self.new whole × (ends ≡ true → Clear self.new))
            (λ e. ReadRefused self.old.line.name.now whole e) }
        ensures name { self.new.line.name.now ≡ self.old.line.name.now }
    {
        match self.bytes.next() {
            Some(byte) => self.line.take(byte?),
            None => {
                self.ended = true;
                Ok(false)
            }
        }
    }

    // Goes on to the next line that has bits. False where there is none. The last line may lack its line feed.
    fn advance(&mut self) -> Result<bool, Trouble>
        ensures known { (xs : List ℕ) → left R.remaining self.old ≡ Some xs → Advanced R.remaining xs self.new result }
        ensures read { (whole : List ℕ) → Reads R.remaining self.old whole → Clear self.old → MatchResult result (λ _. Reads R.remaining self.new whole × Clear self.new)
            (λ e. ReadRefused self.old.line.name.now whole e) }
        ensures name { self.new.line.name.now ≡ self.old.line.name.now }
    {
        self.line.begin();
        while !self.ended {
            if self.step()? {
                return Ok(true);
            }
        }
        Ok(!self.line.bits.is_empty())
    }

    fn block(&self) -> &[u8]
        ensures { result.now ≡ self.now.line.bits.items }
    {
        self.line.bits.as_slice()
    }
}

// Counts the blocks of two texts, the first beside the first, and so on. The readers are asked for a byte at a time.
pub fn count<R: Read + Drop, S: Read + Drop>(
    heap: Global,
    sent: R,
    shown: S,
) -> Result<Comparison, Trouble>
    ensures { (xs ys : List ℕ) → R.remaining sent ≡ Some xs → S.remaining shown ≡ Some ys →
        MatchResult result (λ c. c ≡ compared nothing (blocks xs) (blocks ys)) (λ e. CountRefused xs ys e) }
{
    let mut sent = Blocks::new(heap, sent, "the first file");
    let mut shown = Blocks::new(heap, shown, "the second file");
    let mut comparison = Comparison::none();
    for _round in 0..u64::MAX {
        match (sent.advance()?, shown.advance()?) {
            (true, true) => comparison.pair(sent.block(), shown.block()),
            (true, false) => comparison.sent_alone(),
            (false, true) => comparison.shown_alone(),
            (false, false) => return Ok(comparison),
        }
    }
    Err(Trouble::Endless)
}
