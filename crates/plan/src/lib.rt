// The plan of a coding chain: seven parts that have passed eight questions.
#![tactic(auto)]

mod fault;
mod parts;
mod plan;
mod questions;
mod room;

pub use fault::{ChainFault, PlanFault};
pub use parts::Parts;
pub use plan::Plan;
pub use questions::{all_below, constraint_fits};
pub use room::ListRoom;
