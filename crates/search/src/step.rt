// One step through the trellis: what the two ways into each state score, and which survives.
mod column;
mod ways;

use crate::pass::Pass;
use score::{Kind, StepValues};

// A step of a pass: the values that it takes, and the bit that it must shift out, if one is forced.
#[derive(Drop)]
pub(crate) struct Step<'p, 'a, K: Kind> {
    pub pass: &'p Pass<'a, K>,
    pub values: StepValues,
    pub forced: Option<bool>,
}
