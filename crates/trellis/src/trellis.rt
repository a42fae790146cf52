// The shape of a trellis: the bits of a state, and the steps once round.
ghost use Rattle.std.specs.Prelude.{◌≡◌, ◌*◌, ◌^◌, ◌<◌, ◌≤◌};

mod marks;
mod shape;
mod tracing;

#[derive(Clone, Copy)]
pub struct Trellis {
    memory: usize,
    size: usize,
    // the bytes that hold the marks of one time: one for eight states
    row: usize,
    ghost small: { memory ≤ 8 },
    ghost round: { memory < size },
    ghost long: { size ≤ 1843200 },
    ghost rows: { 8 * row ≡ 2 ^ memory },
}
