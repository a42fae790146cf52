// A small simulator: what a chain's symbols may meet on the air, always the same for the same seed.
#![tactic(auto)]

mod air;
mod decision;
mod generator;
mod hearing;
mod noise;
mod phase;

pub use air::Air;
pub use generator::Generator;
pub use hearing::{Heard, PhasesOnly};
pub use phase::Point;
