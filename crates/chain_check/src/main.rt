// Sends drawn blocks of some rows, hears every symbol, receives and counts, all over texts in memory; and once hears too little.
#![tactic(auto)]

use comparison::Comparison;
use laboratory::{Trouble, count, register_table, send_drawn};
use reception::{Reception, receive};
use rows::Row;
use score::Total;
use std::alloc::{AllocError, Global};
use std::io;
use std::io::sink;

// How many blocks are sent by each row, and their seed.
const BLOCKS: u64 = 2;

const SEED: u64 = 5069;

fn row(bandwidth: usize, waveform: usize) -> Row {
    Row {
        bandwidth,
        waveform,
        interleaver: 0,
    }
}

// What a receiver reads where each line of the first blocks on the air is heard with weight 1: a look comes before each block but the first.
fn heard(heap: Global, air: &[u8], most: u64) -> Result<Vec<u8>, AllocError> {
    let mut lines = Vec::new(heap);
    let mut blocks = 0u64;
    for line in air.split(|byte| *byte == b'\n') {
        match line {
            [] => {}
            [b'#', ..] => {
                blocks = blocks.saturating_add(1);
                if blocks > 1 {
                    lines.extend_from_slice(b"look\n")?;
                }
            }
            _ => {
                if blocks <= most {
                    lines.extend_from_slice(line)?;
                    lines.extend_from_slice(b" 1\n")?;
                }
            }
        }
    }
    Ok(lines)
}

// The counts of a row's blocks, of which the first so many are heard.
fn counted(heap: Global, row: Row, constraint: usize, most: u64) -> Result<Comparison, Trouble> {
    let plan = row.plan(heap, constraint)?;
    let mut air = Vec::new(heap);
    let mut sent = Vec::new(heap);
    let table = register_table(heap, &plan)?;
    send_drawn(heap, &plan, table, BLOCKS, SEED, &mut air, &mut sent)?;
    let lines = heard(heap, air.as_slice(), most)?;
    let table = register_table(heap, &plan)?;
    let mut reception = Reception::new(heap, plan, table, Total)?;
    let mut shown = Vec::new(heap);
    receive(
        heap,
        &mut reception,
        lines.as_slice(),
        &mut shown,
        &mut sink(),
    )?;
    count(heap, sent.as_slice(), shown.as_slice())
}

fn show(rt: &HostRuntime, row: Row, constraint: usize, most: u64) -> io::Result<()> {
    let Row {
        bandwidth,
        waveform,
        ..
    } = row;
    print!(rt; "{bandwidth} kHz, waveform {waveform}, constraint length {constraint}\n")?;
    match counted(rt.alloc(), row, constraint, most) {
        Ok(comparison) => print!(rt; "{comparison}"),
        Err(trouble) => print!(rt; "{trouble}\n"),
    }
}

fn main(rt: HostRuntime) -> io::Result<()> {
    // symbols of one to four bits
    for (waveform, constraint) in [(1, 7), (1, 9), (6, 7), (7, 7), (8, 7)] {
        show(&rt, row(3, waveform), constraint, BLOCKS)?;
    }
    show(&rt, row(3, 14), 7, BLOCKS)?;
    show(&rt, row(3, 1), 8, BLOCKS)?;
    // the check sees an error where there is one: the two drawn blocks differ at 11 of their 24 bits
    print!(rt; "the first block alone is heard, and shown twice\n")?;
    show(&rt, row(3, 1), 7, 1)
}
