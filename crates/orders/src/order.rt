// The orders of the program.
use crate::settings::Settings;
use rows::Row;

// A row of the standard, and a constraint length.
#[derive(Clone, Copy)]
pub struct Choice {
    pub row: Row,
    pub constraint: usize,
}

// How many blocks are drawn, and by which seed.
#[derive(Clone, Copy, Debug, PartialEq, Eq)]
pub struct Drawing {
    pub blocks: u64,
    pub seed: u64,
}

// By which kind of score blocks are compared.
#[derive(Clone, Copy, Debug, PartialEq, Eq)]
pub enum ScoreKind {
    Total,
    Worst,
    CountFirst,
}

#[derive(Clone, Copy)]
pub enum Order<'a> {
    // every row of the standard
    Rows,
    // one row, with its send list
    Plan(Choice),
    // blocks of bits as on-air indices
    Send {
        choice: Choice,
        settings: Settings<'a>,
    },
    // what was heard as blocks of bits
    Receive {
        choice: Choice,
        settings: Settings<'a>,
    },
    // the errors of shown blocks against sent ones, by the names of two files
    Count {
        sent: &'a str,
        shown: &'a str,
    },
}
