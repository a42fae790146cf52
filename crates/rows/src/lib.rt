// The rows of the standard: which plan belongs to a bandwidth, a waveform and an interleaver.
#![tactic(auto)]

mod interleaver;
mod pattern;
mod rate;
mod row;
mod sending;
mod table;

pub use interleaver::{Interleaver, UnknownInterleaver};
pub use rate::Rate;
pub use row::{Entry, Row};
