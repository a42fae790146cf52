// The score of Count-first, in order: the smaller count, of equal counts the smaller total, and last the full count.

// No Option: its None would come before every count, and Full is the greatest.
#[derive(Clone, Copy, Debug, PartialEq, Eq, PartialOrd, Ord)]
pub enum Tally {
    // how many places are contradicted, and the total of their weights
    Counted(u32, u64),
    // the count has reached its end: the single worst score
    Full,
}
