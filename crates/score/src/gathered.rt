// The values of a step, gathered once so that every state can take them.
ghost use Rattle.std.specs.Prelude.{◌≤◌};

pub mod gathering;

// The values that name one mother bit, in the order of the send list: at most one for each of its entries.
// Places and a count, not a Vec: it is copied into each step of a search, which allocates nothing.
#[derive(Clone, Copy)]
pub struct BitValues {
    items: [i16; 32],
    count: usize,
    ghost room: { count ≤ 32 },
}

// The values of the first and of the second mother bit of a step.
#[derive(Clone, Copy)]
pub struct StepValues {
    pub first: BitValues,
    pub second: BitValues,
}
