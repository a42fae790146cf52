// The program chain: rows, plans, blocks on the air and back, and counts, as lines of text.
#![tactic(auto)]

mod obeying;
mod stop;

use crate::obeying::obey;
use crate::stop::Stop;
use orders::order_of;
use std::io::{BufWriter, Write, writer};
use std::process::ExitCode;
use std::{env, io};

fn main(rt: HostRuntime) -> io::Result<ExitCode> {
    let words = match words_of(&rt) {
        Ok(words) => words,
        Err(error) => {
            eprintln!(rt; "chain: {error}")?;
            return Ok(ExitCode::FAILURE);
        }
    };
    if let Err(stop) = run(&rt, words.as_slice()) {
        eprintln!(rt; "chain: {stop}")?;
        return Ok(ExitCode::FAILURE);
    }
    Ok(ExitCode::SUCCESS)
}

// The words behind the program's name.
fn words_of(rt: &HostRuntime) -> io::Result<Vec<String>> {
    Ok(env::args(rt)?.skip(1).collect::<Vec<String>>(rt.alloc())?)
}

// Does what the words ask for.
fn run<'a>(rt: &HostRuntime, words: &'a [String]) -> Result<(), Stop<'a>> {
    let order = order_of(words)?;
    let mut output = BufWriter::new(rt.alloc(), writer(rt))?;
    obey(rt, order, rt.stdin(), &mut output, &mut rt.stderr())?;
    Ok(output.flush()?)
}
