// The lines that a laboratory's simulator writes, and what is answered to them.
#![tactic(auto)]

mod entry;
mod kept;
mod law;
mod number;
mod question;
mod reading;
mod words;
mod writing;

pub use entry::Entry;
pub use kept::read_line;
pub use law::one_entry_holds;
pub use question::Question;
pub use reading::read_entry;
pub use writing::{Bits, Refusal};
