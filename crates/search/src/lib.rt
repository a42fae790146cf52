// The search for the block that fits the values best, through a trellis that bites its tail.
#![tactic(auto)]

mod looking;
mod numbers;
mod pass;
mod step;

pub use looking::{search, search_with_trips};
