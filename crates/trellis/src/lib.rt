// The search for the best block that goes round a trellis: what knows no kind of score.
#![tactic(auto)]

mod column;
mod place;
mod theorem;
mod trellis;

pub use column::Column;
pub use theorem::tie_rule_is_best;
pub use trellis::Trellis;
