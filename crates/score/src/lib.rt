// How badly a block fits what was heard: kinds of score, and the score of a block.
#![tactic(auto)]

mod block;
mod gathered;
mod kind;
mod kinds;
mod tally;
mod theorems;
mod value;

pub use block::score_of;
pub use gathered::gathering::{absorb, gather};
pub use gathered::{BitValues, StepValues};
pub use kind::Kind;
pub use kinds::{CountFirst, Total, Worst};
pub use tally::Tally;
pub use theorems::total_is_true_sum;
