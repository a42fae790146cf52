// What a line asks for.
use plan::Parts;

#[derive(Drop)]
pub enum Command {
    // accept a plan
    Plan(Parts),
    // make the receiver, with a table of these values
    Table(Vec<u8>),
    Hear {
        place: usize,
        index: u8,
        weight: u16,
    },
    Note {
        location: usize,
        value: i16,
    },
    Blank {
        place: usize,
    },
    Look,
}
