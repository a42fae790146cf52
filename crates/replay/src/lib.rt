// Any list of calls, and the promise of the look after it.
#![tactic(auto)]

mod call;
mod carrying;
mod looking;
mod replaying;

pub use call::{Call, Lent};
pub use replaying::{Replayed, replay};
