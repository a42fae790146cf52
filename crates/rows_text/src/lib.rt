// The standard's table as lines of text, for the programs that print it.
#![tactic(auto)]

mod bands;
mod lists;
mod sums;
mod waveforms;

pub use bands::write_bands;
pub use lists::write_lists;
