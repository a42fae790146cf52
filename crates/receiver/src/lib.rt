// The receiver: values at locations, set by what is heard, noted and blanked.
#![tactic(auto)]

mod laws;
mod questions;
mod receiver;
mod values;

pub use laws::fit_lasts;
pub use receiver::Receiver;
