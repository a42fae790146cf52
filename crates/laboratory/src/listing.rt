// The rows of the standard as lines of text.
ghost use Rattle.std.specs.Prelude.{OnOk, Some};
ghost use Rattle.std.specs.Io.KnownBytes.{Appends};
ghost use Rattle.plan.specs.Parts.{scheme};
ghost use Rattle.plan.specs.Plans.{plan_scheme};
ghost use Rattle.rows.specs.Rows.{row_entry};
ghost use Rattle.laboratory.specs.Listing.{lines_of, row_line, waveform_lines, bandwidth_lines, rows_text, asked_lines, rate_lines, size_lines, order_lines, list_lines, plan_text};

use plan::{Parts, Plan};
use rows::{Entry, Row};
use std::io;
use std::io::Write;

// Every row, a line each, and before them a comment that names the columns.
pub fn write_rows<W: Write>(output: &mut W) -> io::Result<()>
    ensures { OnOk result (Appends (W.contents output.old) (W.contents output.new) rows_text) }
{
    write!(
        output,
        "# bandwidth waveform interleaver rate q frame_length B N increment\n"
    )?;
    // all rows below 64 kHz
    for bandwidth in 0..64 {
        write_waveforms(output, bandwidth)?;
    }
    Ok(())
}

// The rows of a bandwidth: the numbers go further than those of any waveform.
fn write_waveforms<W: Write>(output: &mut W, bandwidth: usize) -> io::Result<()>
    ensures { OnOk result (Appends (W.contents output.old) (W.contents output.new) (bandwidth_lines bandwidth)) }
{
    for waveform in 0..32 {
        write_interleavers(output, bandwidth, waveform)?;
    }
    Ok(())
}

// The rows of a waveform: the numbers go further than those of any interleaver.
fn write_interleavers<W: Write>(output: &mut W, bandwidth: usize, waveform: usize) -> io::Result<()>
    ensures { OnOk result (Appends (W.contents output.old) (W.contents output.new) (waveform_lines bandwidth waveform)) }
{
    for interleaver in 0..8 {
        write_row(
            output,
            Row {
                bandwidth,
                waveform,
                interleaver,
            },
        )?;
    }
    Ok(())
}

// A row, where the standard has it.
fn write_row<W: Write>(output: &mut W, row: Row) -> io::Result<()>
    ensures { OnOk result (Appends (W.contents output.old) (W.contents output.new) (row_line row (row_entry row))) }
{
    match row.entry() {
        Some(entry) => write_entry(output, row, entry),
        None => Ok(()),
    }
}

fn write_entry<W: Write>(output: &mut W, row: Row, entry: Entry) -> io::Result<()>
    ensures { OnOk result (Appends (W.contents output.old) (W.contents output.new) (row_line row (Some entry))) }
{
    let Row {
        bandwidth,
        waveform,
        interleaver,
    } = row;
    let Entry {
        rate,
        symbol_bits,
        frames: _,
        frame_length,
        sent_length,
        block_length,
        increment,
    } = entry;
    write!(
        output,
        "{bandwidth} {waveform} {interleaver} {rate} {symbol_bits} {frame_length} {block_length} {sent_length} {increment}\n"
    )
}

// One row, a name and its numbers to a line.
pub fn write_plan<W: Write>(output: &mut W, row: Row, plan: &Plan) -> io::Result<()>
    ensures { OnOk result (Appends (W.contents output.old) (W.contents output.new) (plan_text row (plan_scheme plan.now))) }
{
    write_asked(output, row, plan)?;
    write_rate(output, row)?;
    write_sizes(output, plan.parts(), plan.sent_length())?;
    write_order(output, plan.parts(), plan.symbols())?;
    write_list(output, plan)
}

fn write_asked<W: Write>(output: &mut W, row: Row, plan: &Plan) -> io::Result<()>
    ensures { OnOk result (Appends (W.contents output.old) (W.contents output.new) (lines_of (asked_lines row (plan_scheme plan.now).constraint))) }
{
    let Row {
        bandwidth,
        waveform,
        interleaver,
    } = row;
    let constraint = plan.parts().constraint;
    write!(
        output,
        "bandwidth {bandwidth}\nwaveform {waveform}\ninterleaver {interleaver}\nconstraint {constraint}\n"
    )
}

// The rate of a row, where the standard has it.
fn write_rate<W: Write>(output: &mut W, row: Row) -> io::Result<()>
    ensures { OnOk result (Appends (W.contents output.old) (W.contents output.new) (lines_of (rate_lines (row_entry row)))) }
{
    match row.entry() {
        Some(entry) => {
            let rate = entry.rate;
            write!(output, "rate {rate}\n")
        }
        None => Ok(()),
    }
}

fn write_sizes<W: Write>(output: &mut W, parts: &Parts, sent: usize) -> io::Result<()>
    ensures { OnOk result (Appends (W.contents output.old) (W.contents output.new) (lines_of (size_lines (scheme parts.now) sent))) }
{
    let q = parts.symbol_bits;
    let frame = parts.frame_length;
    let block = parts.block_length;
    write!(output, "q {q}\nframe_length {frame}\nB {block}\nN {sent}\n")
}

fn write_order<W: Write>(output: &mut W, parts: &Parts, symbols: usize) -> io::Result<()>
    ensures { OnOk result (Appends (W.contents output.old) (W.contents output.new) (lines_of (order_lines (scheme parts.now) symbols))) }
{
    let increment = parts.increment;
    let period = parts.period;
    write!(
        output,
        "symbols {symbols}\nincrement {increment}\nperiod {period}\n"
    )
}

fn write_list<W: Write>(output: &mut W, plan: &Plan) -> io::Result<()>
    ensures { OnOk result (Appends (W.contents output.old) (W.contents output.new) (lines_of (list_lines (plan_scheme plan.now)))) }
{
    write!(output, "send_list")?;
    for entry in plan.parts().send_list.as_slice() {
        write!(output, " {entry}")?;
    }
    write!(output, "\n")
}
