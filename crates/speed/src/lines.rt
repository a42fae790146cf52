// A batch as lines that another program reads.
use crate::decoder::Decoder;
use crate::judge::Judge;
use crate::plans::half_rate_plan;
use crate::request::Batch;
use crate::source::Source;
use crate::timing::timed_look;
use crate::trouble::Trouble;
use std::io;

// A line for each block: its values.
pub(crate) fn show_blocks(rt: &HostRuntime, batch: Batch) -> Result<(), Trouble> {
    let plan = half_rate_plan(rt.alloc(), batch.constraint, batch.block_length)?;
    let mut source = Source::new(&plan, batch.decibels, batch.seed);
    for _ in 0..batch.blocks {
        let drawn = source.draw(rt.alloc(), &plan)?;
        show_values(rt, drawn.values.as_slice())?;
    }
    Ok(())
}

fn show_values(rt: &HostRuntime, values: &[i16]) -> io::Result<()> {
    for value in values {
        print!(rt; "{value} ")?;
    }
    println!(rt; "")
}

// A line for each block: nanoseconds, trips, score, and the bits that are shown.
pub(crate) fn show_looks(rt: &HostRuntime, batch: Batch) -> Result<(), Trouble> {
    let plan = half_rate_plan(rt.alloc(), batch.constraint, batch.block_length)?;
    let mut decoder = Decoder::new(rt.alloc(), &plan)?;
    let mut source = Source::new(&plan, batch.decibels, batch.seed);
    for _ in 0..batch.blocks {
        let drawn = source.draw(rt.alloc(), &plan)?;
        let (look, time) = timed_look(
            rt,
            &plan,
            Judge::Total,
            &mut decoder,
            drawn.values.as_slice(),
        )?;
        let nanoseconds = time.as_nanos();
        let trips = look.trips;
        let score = look.score;
        print!(rt; "{nanoseconds} {trips} {score} ")?;
        show_bits(rt, decoder.block.as_slice())?;
    }
    Ok(())
}

fn show_bits(rt: &HostRuntime, bits: &[u8]) -> io::Result<()> {
    for bit in bits {
        print!(rt; "{bit}")?;
    }
    println!(rt; "")
}
