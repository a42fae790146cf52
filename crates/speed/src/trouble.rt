// What can go wrong, and how it is said.
use plan::ChainFault;
use std::alloc::AllocError;
use std::io;
use thiserror::Error;

// What is wrong with the arguments.
#[derive(Clone, Copy, Debug, Error)]
pub enum Slip {
    #[error("there is no such word")]
    Word,
    #[error("a batch takes five numbers")]
    Count,
    #[error("the {0} is not a whole number, or too great")]
    Number(&'static str),
}

#[derive(Debug, Drop, Error)]
pub enum Trouble {
    #[error("{0}\n{usage}", usage = USAGE)]
    Arguments(#[from] Slip),
    #[error(transparent)]
    Chain(#[from] ChainFault),
    #[error(transparent)]
    Outside(#[from] io::Error),
    #[error("{fault}", fault = ChainFault::OutOfMemory)]
    Memory(#[from(alloc)] AllocError),
}

const USAGE: &'static str = "usage: speed
       speed time
       speed growth
       speed blocks BATCH
       speed looks BATCH
BATCH is five numbers: constraint length, bits of a block, decibels, blocks, seed";
