// A call of a list, with the length of each memory that it is lent: at most what there is.

// The lengths of the memories that a look is lent.
#[derive(Clone, Copy, Debug)]
pub struct Lent {
    pub memory: usize,
    pub block: usize,
    pub old: usize,
    pub new: usize,
    pub marks: usize,
}

#[derive(Clone, Copy, Debug)]
pub enum Call {
    Hear {
        lent: usize,
        place: usize,
        index: u8,
        weight: u16,
    },
    Note {
        lent: usize,
        location: usize,
        value: i16,
    },
    Blank {
        lent: usize,
        place: usize,
    },
    Look {
        lent: Lent,
    },
}
