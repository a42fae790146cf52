// Prints the whole table of rows, so that it can be compared, number by number, with a second transcription of it.
#![tactic(auto)]

mod refusals;

use crate::refusals::write_all;
use rows_text::{write_bands, write_lists};
use std::io;
use std::io::{BufWriter, Write, writer};

fn main(rt: HostRuntime) -> io::Result<()> {
    let mut output = BufWriter::new(rt.alloc(), writer(&rt))?;
    write_bands(&mut output)?;
    write_lists(rt.alloc(), &mut output)?;
    write_all(rt.alloc(), &mut output)?;
    output.flush()
}
