// One reception: what a laboratory's lines set and ask for, in memory that is had once.
#![tactic(auto)]

mod carrying;
mod looking;
mod receiving;
mod reception;
mod shown;
mod written;

pub use receiving::receive;
pub use reception::Reception;
pub use shown::Shown;
pub use written::{ScoreText, WrittenKind};
