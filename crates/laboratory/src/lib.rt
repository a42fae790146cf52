// What a laboratory does with the chain at a command line, over any readers and writers.
#![tactic(auto)]

mod counting;
mod listing;
mod sending;
mod table;
mod text;
mod trouble;

pub use counting::count;
pub use listing::{write_plan, write_rows};
pub use sending::send_drawn;
pub use table::{register_table, table_of};
pub use text::send_text;
pub use trouble::Trouble;
