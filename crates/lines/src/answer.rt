// What the bench answers to a line.
#[derive(Drop)]
pub enum Answer {
    Accepted,
    // the score and the block that a look shows, one bit a byte
    Shown { score: u64, block: Vec<u8> },
    // the number of the question that was answered no, a byte as the line shows it, and that of the line; a fault would be
    // a narrower type, and callers may have any byte
    Refused { number: u8, line: u16 },
}
