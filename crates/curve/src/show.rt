// What a person reads.
ghost use Rattle.std.specs.Prelude.{◌<◌};

use crate::checksum::crc32;
use crate::choice::{Choice, Named, Run};
use crate::counting::dots_of;
use crate::plot::{show_dots, show_plot};
use crate::sent::{Sent, drawn_and_sent};
use crate::svg::show_svg;
use crate::trouble::Trouble;
use channel::Generator;
use plan::Plan;
use rows_text::write_bands;
use std::io;
use std::io::{BufWriter, Write, writer};
use std::time::Instant;

// The seed of every block that is drawn here.
const SEED: u64 = 5069;

// How many digits stand on a line.
const LINE: usize = 68;

// How many bits of a block are shown: of a longer one, its beginning.
const SHOWN: usize = 272;

// The standard's table, with a line that says what its numbers are.
pub(crate) fn show_rows(rt: &HostRuntime) -> io::Result<()> {
    println!(rt;
        "waveform, rate, bits of a symbol, symbols of a frame; for each interleaver: frames, bits sent, bits of a block, increment"
    )?;
    let mut output = BufWriter::new(rt.alloc(), writer(rt))?;
    write_bands(&mut output)?;
    output.flush()
}

// Counts the dots of a run, and shows them as lines and as a plot, or as SVG alone.
pub(crate) fn show_curve(rt: &HostRuntime, run: Run) -> Result<(), Trouble> {
    let dots = dots_of(rt, run)?;
    if run.svg {
        return Ok(show_svg(&mut rt.stdout(), run.choice, dots.as_slice())?);
    }
    let plan = run.choice.row.plan(rt.alloc(), run.choice.constraint)?;
    show_choice(rt, run.choice)?;
    show_plan(rt, &plan)?;
    show_dots(&mut rt.stdout(), dots.as_slice())?;
    Ok(show_plot(&mut rt.stdout(), run.choice, dots.as_slice())?)
}

// Draws a block, sends it, and shows the row, the block and the first frame.
pub(crate) fn show_sent(rt: &HostRuntime, choice: Choice) -> Result<(), Trouble> {
    let plan = choice.row.plan(rt.alloc(), choice.constraint)?;
    show_choice(rt, choice)?;
    show_plan(rt, &plan)?;
    let sent = drawn_and_sent(rt.alloc(), &plan, &mut Generator::new(SEED))?;
    show_block(rt, sent.block.as_slice())?;
    show_frame(rt, &plan, sent.indices.as_slice())?;
    Ok(show_checksum(rt, sent.indices.as_slice())?)
}

// The same of the longest row, without the digits; how long it took goes to standard error.
pub(crate) fn show_time(rt: &HostRuntime) -> Result<(), Trouble> {
    let choice = Choice::longest();
    let plan = choice.row.plan(rt.alloc(), choice.constraint)?;
    show_choice(rt, choice)?;
    show_plan(rt, &plan)?;
    let start = Instant::now(rt)?;
    let sent = drawn_and_sent(rt.alloc(), &plan, &mut Generator::new(SEED))?;
    let seconds = start.elapsed(rt)?.as_secs_f64();
    eprintln!(rt; "drawn and sent in {seconds:.3} s")?;
    Ok(show_checksum(rt, sent.indices.as_slice())?)
}

fn show_choice(rt: &HostRuntime, choice: Choice) -> io::Result<()> {
    let named = Named(choice);
    println!(rt; "{named}")?;
    let Some(entry) = choice.row.entry() else {
        return Ok(());
    };
    let rate = entry.rate;
    let frames = entry.frames;
    println!(rt; "rate {rate}, {frames} frames to a block")
}

// The numbers of the plan, with the letters that they go by.
fn show_plan(rt: &HostRuntime, plan: &Plan) -> io::Result<()> {
    let block = plan.parts().block_length;
    let sent = plan.sent_length();
    let bits = plan.parts().symbol_bits;
    let frame = plan.parts().frame_length;
    println!(rt;
        "B = {block} bits of a block, N = {sent} bits sent, q = {bits} bits of a symbol, F = {frame} symbols of a frame"
    )
}

fn show_block(rt: &HostRuntime, block: &[u8]) -> io::Result<()> {
    println!(rt; "block, drawn by the seed {SEED}:")?;
    show_values(rt, &block[0..block.len().min(SHOWN)], LINE, 1)?;
    if block.len() > SHOWN {
        let more = block.len() - SHOWN;
        println!(rt; "and {more} bits more")?;
    }
    Ok(())
}

// The first frame on the air: a digit an index, or two of base sixteen where a symbol has more than three bits.
fn show_frame(rt: &HostRuntime, plan: &Plan, indices: &[u8]) -> io::Result<()> {
    println!(rt; "first frame, on-air indices:")?;
    let frame = &indices[0..indices.len().min(plan.parts().frame_length)];
    if plan.parts().symbol_bits <= 3 {
        show_values(rt, frame, LINE, 1)
    } else {
        show_values(rt, frame, LINE / 2, 2)
    }
}

// Values on lines of so many, each by so many digits of base sixteen.
fn show_values(rt: &HostRuntime, values: &[u8], line: usize, digits: usize) -> io::Result<()>
    requires { 0 < line }
{
    for part in values.chunks(line) {
        show_line(rt, part, digits)?;
    }
    Ok(())
}

fn show_line(rt: &HostRuntime, values: &[u8], digits: usize) -> io::Result<()> {
    for value in values {
        print!(rt; "{value:0digits$X}")?;
    }
    println!(rt; "")
}

fn show_checksum(rt: &HostRuntime, indices: &[u8]) -> io::Result<()> {
    let count = indices.len();
    let sum = crc32(indices);
    println!(rt; "CRC-32 of all {count} on-air indices, a byte each: {sum:08X}")
}
