// The bench: reads lines from standard input, and answers each.
#![tactic(auto)]

ghost use Rattle.std.specs.Prelude.{◌≡◌, ℕ, List, OnOk};
ghost use Rattle.std.specs.Io.KnownBytes.{Appends};
ghost use Rattle.bench.specs.Answering.{Replied, AnsweredAll};
ghost use Rattle.lines.specs.Answers.{answer_text};
ghost use Rattle.lines.specs.Inputs.{kept_of};
ghost use Rattle.lines.specs.declared.answer.Answer.{Answer as TheAnswer};
ghost use Rattle.session.specs.Sessions.{held};

use lines::{Answer, Line, LineFault, LineRoom, answer_text};
use session::{CommandRoom, Session};
use std::alloc::{AllocError, Global};
use std::io;
use std::io::{BufReader, Read, Write};

// The room for one line.
fn rooms(heap: Global) -> Result<(LineRoom, CommandRoom), AllocError> {
    Ok((LineRoom::new(heap)?, CommandRoom::new(heap)?))
}

// The answer to the line with this number. Where there is no room for it, it is refused.
fn answer(heap: Global, session: &mut Session, line: &Line, number: u16) -> Answer
    ensures { (text : List ℕ) → line.now.kept.items ≡ kept_of text → Replied number text (held session.old) (held session.new) result }
{
    match rooms(heap) {
        Ok((reading, room)) => session.answer(line, number, reading, room),
        Err(fault) => Answer::Refused {
            number: LineFault::from(fault).number(),
            line: number,
        },
    }
}

// Writes the answer to the line with this number.
fn write_answer<W: Write>(
    heap: Global,
    session: &mut Session,
    line: &Line,
    number: u16,
    output: &mut W,
) -> io::Result<()>
    ensures { (text : List ℕ) → line.now.kept.items ≡ kept_of text → OnOk result ((reply : TheAnswer) × Replied number text (held session.old) (held session.new) reply × Appends (W.contents output.old) (W.contents output.new) (answer_text reply)) }
{
    let answer = answer(heap, session, line, number);
    let text = answer_text(heap, &answer)?;
    output.write_all(text.as_str().as_bytes())
}

// Answers each line, as many as 16 bits can count; what follows is ignored. One loop over the bytes: read by `Lines`, a line of
// two thousand characters takes twice as long.
fn answer_lines<R: Read + Drop, W: Write>(heap: Global, input: R, output: &mut W) -> io::Result<()>
    ensures { OnOk result ((text : List ℕ) × AnsweredAll (R.remaining input) text × Appends (W.contents output.old) (W.contents output.new) text) }
{
    let mut session = Session::new(heap)?;
    let mut line = Line::new(heap);
    let mut number: u16 = 1;
    for byte in input.bytes() {
        let byte = byte?;
        if byte != b'\n' {
            line.push(byte)?;
            continue;
        }
        write_answer(heap, &mut session, &line, number, output)?;
        line.clear();
        let Some(next) = number.checked_add(1) else {
            return Ok(());
        };
        number = next;
    }
    if !line.is_empty() {
        write_answer(heap, &mut session, &line, number, output)?;
    }
    Ok(())
}

fn main(rt: HostRuntime) -> io::Result<()> {
    let reader = BufReader::new(rt.alloc(), rt.stdin())?;
    answer_lines(rt.alloc(), reader, &mut rt.stdout())
}

#[cfg(test)]
mod tests {
    use super::*;
    use std::test::Fail;

    // What is said to a text of lines.
    fn said_to(heap: Global, text: &[u8]) -> Result<Vec<u8>, Fail> {
        let mut said = Vec::new(heap);
        answer_lines(heap, text, &mut said)?;
        Ok(said)
    }

    // As many lines are answered as 16 bits can count, the last one with its number.
    #[test]
    fn lines_are_counted(rt: HostRuntime) -> Result<(), Fail> {
        let text = vec![in rt.alloc(); b'\n'; 65_537]?;
        let said = said_to(rt.alloc(), text.as_slice())?;
        assert_eq!(rt; said.len(), 8 * 65_535);
        assert!(rt; said.as_slice().ends_with(b"R12FFFF\n"));
        Ok(())
    }

    // The last line may lack its line feed, and nothing follows the last line feed.
    #[test]
    fn last_line(rt: HostRuntime) -> Result<(), Fail> {
        for text in [b"L".as_slice(), b"L\n".as_slice()] {
            let said = said_to(rt.alloc(), text)?;
            assert_eq!(rt; said.as_slice(), b"R130001\n".as_slice());
        }
        Ok(())
    }
}
