// What a line says: a symbol is heard, a value is noted, a symbol is blanked, or the best block is asked for.
#[derive(Clone, Copy, Debug, PartialEq, Eq)]
pub enum Entry {
    Hear { place: u32, index: u8, weight: u16 },
    Note { location: u32, value: i16 },
    Blank { place: u32 },
    Look,
}
