// The convolutional code, the order of sending and the mapping to symbols.
#![tactic(auto)]

mod block;
mod encoder;
mod generators;
mod interleaver;
mod mapping;
mod numbers;
mod run;

pub use block::{Block, is_block};
pub use encoder::encode;
pub use generators::parity;
pub use interleaver::{load, location};
pub use mapping::{has_bits, number_for, symbol_at, symbol_for, symbol_locations};
pub use run::Run;
