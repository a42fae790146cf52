// A pass: once round the trellis, with the bits of the start forced.
ghost use Rattle.std.specs.Prelude.{◌≡◌, ◌*◌, ◌/◌, ◌^◌, ◌≤◌, length};
ghost use Rattle.plan.specs.Plans.{plan_scheme};
ghost use Rattle.search.specs.Searching.{memory};

mod choosing;
mod closing;
mod picking;
mod ranking;
mod sweeping;

use plan::Plan;
use score::Kind;
use trellis::{Column, Trellis};

// What every pass of a search shares. The trellis is the plan's.
#[derive(Drop)]
pub(crate) struct Pass<'a, K: Kind> {
    pub plan: &'a Plan,
    pub kind: &'a K,
    pub values: &'a [i16],
    pub trellis: Trellis,
    ghost memory_fits: { trellis.memory ≡ memory (plan_scheme plan.now) },
    ghost size_fits: { trellis.size ≡ (plan_scheme plan.now).block },
}

// The memories that every pass of a search works in: the columns before and after a step, and the marks. Each is long enough.
#[derive(Drop)]
pub(crate) struct Workspace<'p, 'a, 'm, 'c, K: Kind> {
    pub pass: &'p Pass<'a, K>,
    pub before: &'m mut Column<'c, K::Score>,
    pub after: &'m mut Column<'c, K::Score>,
    pub marks: &'m mut [u8],
    // how many passes there were
    pub trips: usize,
    ghost before_fits: { 2 ^ pass.now.trellis.memory ≤ length before.now.scores.now },
    ghost after_fits: { 2 ^ pass.now.trellis.memory ≤ length after.now.scores.now },
    ghost marks_fit: { pass.now.trellis.size * 2 ^ pass.now.trellis.memory / 8 ≤ length marks.now },
}
