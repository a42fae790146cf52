// Answering a stream of lines, one line in memory at a time.
ghost use Rattle.std.specs.Prelude.{◌≡◌, ℕ, ◌-◌, ◌^◌, ◌↔◌, IsTrue, List, take, Some, Ok, OnOk};
ghost use Rattle.std.specs.Io.KnownBytes.{Appends};
ghost use Rattle.entries.specs.Readings.{LineReading};
ghost use Rattle.entries.specs.declared.entry.Entry.TheVariants.{Look};
ghost use Rattle.lines.specs.Inputs.{kept_of};
ghost use Rattle.lines.specs.Streams.{lines_of, left};
ghost use Rattle.receiver.specs.Receivers.{view_of};
ghost use Rattle.replay.specs.Given.{given};
ghost use Rattle.reception.specs.Receiving.{announcement, Begins, Announced, Replied, Received, Last, ReceivedAll};
ghost use Rattle.reception.specs.Written.{shown_text};

use crate::reception::Reception;
use crate::shown::Shown;
use crate::written::WrittenKind;
use entries::{Entry, Refusal, read_line};
use lines::{Line, LineFault, Lines};
use scrambler::Scrambler;
use std::alloc::Global;
use std::io;
use std::io::{BufReader, Read, Write};

// A look of a block of so many bits is announced.
const LONG: usize = 10_000;

// Says that a look begins, where the block is long.
fn announce<P: Write>(bits: usize, progress: &mut P) -> io::Result<()>
    ensures { OnOk result (Appends (P.contents progress.old) (P.contents progress.new) (announcement bits)) }
{
    if bits >= LONG {
        write!(progress, "looking for the best block of {bits} bits\n")?;
    }
    Ok(())
}

// Whether a line asks for a look, by what it says.
fn is_look(said: Result<Option<Entry>, LineFault>) -> bool
    ensures { IsTrue result ↔ (said ≡ Ok (Some Look)) }
{
    matches!(said, Ok(Some(Entry::Look)))
}

// Writes the block that was shown, and its score, and holds nothing back.
fn write_shown<S: Scrambler + Drop, K: WrittenKind + Drop, W: Write>(
    reception: &Reception<S, K>,
    score: K::Score,
    output: &mut W,
) -> io::Result<()>
    ensures { OnOk result (Appends (W.contents output.old) (W.contents output.new) (shown_text (K.written score) reception.now.block.items)) }
{
    let score = reception.text(score);
    let block = reception.block();
    let shown = Shown { score, block };
    write!(output, "{shown}")?;
    output.flush()
}

// Writes the answer to what the line with this number says.
fn reply<S: Scrambler + Drop, K: WrittenKind + Drop, W: Write>(
    reception: &mut Reception<S, K>,
    said: Result<Option<Entry>, LineFault>,
    number: u64,
    output: &mut W,
) -> io::Result<()>
    ensures replied { (whole : List ℕ) → LineReading whole said → let v = view_of S.meaning reception.old.receiver in let w = given reception.old.values.items reception.old.block.items reception.old.scores.items reception.old.marks.items in let k = K.Kind.scale reception.old.kind in OnOk result ((text : List ℕ) × Replied k K.written v w number whole reception.old.values.items reception.new.values.items text × Appends (W.contents output.old) (W.contents output.new) text) }
    ensures kept { view_of S.meaning reception.new.receiver ≡ view_of S.meaning reception.old.receiver }
    ensures kind { reception.new.kind ≡ reception.old.kind }
    ensures lengths { given reception.new.values.items reception.new.block.items reception.new.scores.items reception.new.marks.items ≡ given reception.old.values.items reception.old.block.items reception.old.scores.items reception.old.marks.items }
{
    match reception.answer(said) {
        Ok(None) => Ok(()),
        Ok(Some(score)) => write_shown(reception, score, output),
        Err(fault) => {
            let refusal = Refusal {
                fault,
                line: number,
            };
            write!(output, "{refusal}")
        }
    }
}

// Answers the line with this number. Before a look nothing is held back, and it is announced.
fn answer<S: Scrambler + Drop, K: WrittenKind + Drop, W: Write, P: Write>(
    reception: &mut Reception<S, K>,
    line: &Line,
    number: u64,
    output: &mut W,
    progress: &mut P,
) -> io::Result<()>
    ensures replied { (whole : List ℕ) → line.now.kept.items ≡ kept_of whole → let v = view_of S.meaning reception.old.receiver in let w = given reception.old.values.items reception.old.block.items reception.old.scores.items reception.old.marks.items in let k = K.Kind.scale reception.old.kind in OnOk result ((text : List ℕ) × (aside : List ℕ) × Replied k K.written v w number whole reception.old.values.items reception.new.values.items text × Begins v.scheme.block whole aside × Appends (W.contents output.old) (W.contents output.new) text × Appends (P.contents progress.old) (P.contents progress.new) aside) }
    ensures kept { view_of S.meaning reception.new.receiver ≡ view_of S.meaning reception.old.receiver }
    ensures kind { reception.new.kind ≡ reception.old.kind }
    ensures lengths { given reception.new.values.items reception.new.block.items reception.new.scores.items reception.new.marks.items ≡ given reception.old.values.items reception.old.block.items reception.old.scores.items reception.old.marks.items }
{
    let said = read_line(line);
    if is_look(said) {
        output.flush()?;
        announce(reception.block().len(), progress)?;
    }
    reply(reception, said, number, output)
}

// Shows the best block after the last line.
fn show_last<S: Scrambler + Drop, K: WrittenKind + Drop, W: Write>(
    reception: &mut Reception<S, K>,
    output: &mut W,
) -> io::Result<()>
    ensures { let v = view_of S.meaning reception.old.receiver in let w = given reception.old.values.items reception.old.block.items reception.old.scores.items reception.old.marks.items in let k = K.Kind.scale reception.old.kind in OnOk result ((text : List ℕ) × Last k K.written v w reception.old.values.items text × Appends (W.contents output.old) (W.contents output.new) text) }
{
    let score = reception.show();
    write_shown(reception, score, output)
}

// Answers every line, as many as 64 bits can count.
fn answer_all<S: Scrambler + Drop, K: WrittenKind + Drop, R: Read + Drop, W: Write, P: Write>(
    reception: &mut Reception<S, K>,
    lines: &mut Lines<R>,
    output: &mut W,
    progress: &mut P,
) -> io::Result<()>
    ensures received { let v = view_of S.meaning reception.old.receiver in let w = given reception.old.values.items reception.old.block.items reception.old.scores.items reception.old.marks.items in let k = K.Kind.scale reception.old.kind in OnOk result ((each : List (List ℕ)) × (text : List ℕ) × (aside : List ℕ) × Received k K.written v w 1 each reception.old.values.items reception.new.values.items text × Announced v.scheme.block each aside
        × Appends (W.contents output.old) (W.contents output.new) text × Appends (P.contents progress.old) (P.contents progress.new) aside
        × ((input : List ℕ) → left R.remaining lines.old ≡ Some input → each ≡ take (2 ^ 64 - 1) (lines_of input))) }
    ensures kept { view_of S.meaning reception.new.receiver ≡ view_of S.meaning reception.old.receiver }
    ensures kind { reception.new.kind ≡ reception.old.kind }
    ensures lengths { given reception.new.values.items reception.new.block.items reception.new.scores.items reception.new.marks.items ≡ given reception.old.values.items reception.old.block.items reception.old.scores.items reception.old.marks.items }
{
    for number in 0..u64::MAX {
        if !lines.advance()? {
            return Ok(());
        }
        answer(reception, lines.line(), number + 1, output, progress)?;
    }
    Ok(())
}

// Answers every line of the input, and shows the best block at its end.
pub fn receive<S: Scrambler + Drop, K: WrittenKind + Drop, R: Read + Drop, W: Write, P: Write>(
    heap: Global,
    reception: &mut Reception<S, K>,
    input: R,
    output: &mut W,
    progress: &mut P,
) -> io::Result<()>
    ensures { let v = view_of S.meaning reception.old.receiver in let w = given reception.old.values.items reception.old.block.items reception.old.scores.items reception.old.marks.items in let k = K.Kind.scale reception.old.kind in OnOk result ((text : List ℕ) × (aside : List ℕ) × ReceivedAll k K.written v w (R.remaining input) reception.old.values.items text aside × Appends (W.contents output.old) (W.contents output.new) text × Appends (P.contents progress.old) (P.contents progress.new) aside) }
{
    let reader = BufReader::new(heap, input)?;
    let mut lines = Lines::new(heap, reader);
    answer_all(reception, &mut lines, output, progress)?;
    announce(reception.block().len(), progress)?;
    show_last(reception, output)
}
