// What is answered to numbers that the standard does not have, and to one row that it has.
ghost use Rattle.std.specs.Prelude.{ℕ, List, OnOk};
ghost use Rattle.std.specs.Io.KnownBytes.{Appends};
ghost use Rattle.rows_check.specs.Refusals.{IsAnswer, IsLine, AreLines, asked};

use rows::Row;
use std::alloc::Global;
use std::io;
use std::io::Write;

// A line for each.
pub(crate) fn write_all<W: Write>(heap: Global, output: &mut W) -> io::Result<()>
    ensures { OnOk result ((text : List ℕ) × AreLines asked text × Appends (W.contents output.old) (W.contents output.new) text) }
{
    for (bandwidth, waveform, interleaver, constraint) in [
        (18, 4, 0, 7),
        (6, 13, 0, 9),
        (24, 0, 1, 7),
        (24, 1, 4, 7),
        (40, 1, 4, 8),
        (24, 1, 0, 8),
        (24, 1, 0, 9),
    ] {
        let row = Row {
            bandwidth,
            waveform,
            interleaver,
        };
        write_line(heap, output, row, constraint)?;
    }
    Ok(())
}

// What is asked for, and the answer.
fn write_line<W: Write>(heap: Global, output: &mut W, row: Row, constraint: usize) -> io::Result<()>
    ensures { OnOk result ((text : List ℕ) × IsLine row constraint text × Appends (W.contents output.old) (W.contents output.new) text) }
{
    let Row {
        bandwidth,
        waveform,
        interleaver,
    } = row;
    write!(
        output,
        "{bandwidth} {waveform} {interleaver} with {constraint}: "
    )?;
    write_answer(heap, output, row, constraint)
}

fn write_answer<W: Write>(
    heap: Global,
    output: &mut W,
    row: Row,
    constraint: usize,
) -> io::Result<()>
    ensures { OnOk result ((text : List ℕ) × IsAnswer row constraint text × Appends (W.contents output.old) (W.contents output.new) text) }
{
    match row.plan(heap, constraint) {
        Ok(plan) => {
            let block = plan.parts().block_length;
            let sent = plan.sent_length();
            let frame = plan.parts().frame_length;
            write!(output, "block {block}, sent {sent}, frame {frame}\n")
        }
        Err(fault) => write!(output, "{fault}\n"),
    }
}
