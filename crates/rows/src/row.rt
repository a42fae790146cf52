// A row of the standard by its three numbers, and what stands in it.
use crate::rate::Rate;

mod planning;
mod reading;

// Which row is meant: any number may be asked for.
#[derive(Clone, Copy)]
pub struct Row {
    // in kHz
    pub bandwidth: usize,
    // 1 to 13
    pub waveform: usize,
    // 0 ultra short, 1 short, 2 medium, 3 long; a number, since any may be asked for
    pub interleaver: usize,
}

// What the standard says of a row.
#[derive(Clone, Copy)]
pub struct Entry {
    pub rate: Rate,
    // the bits of a symbol
    pub symbol_bits: usize,
    // the data frames that a block fills
    pub frames: usize,
    // the data symbols of a frame
    pub frame_length: usize,
    // the bits of the interleaver: what is sent for a block
    pub sent_length: usize,
    // the bits of a block
    pub block_length: usize,
    // the step from the location of one sent bit to that of the next
    pub increment: usize,
}
