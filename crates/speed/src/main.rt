// Measures the search: how many looks it makes in a second, and how often each goes round the trellis.
#![tactic(auto)]

mod decoder;
mod fixed;
mod judge;
mod lines;
mod plans;
mod request;
mod source;
mod tables;
mod timing;
mod trouble;

use crate::fixed::show_fixed;
use crate::lines::{show_blocks, show_looks};
use crate::request::{Request, request_of};
use crate::tables::{show_growth, show_kinds};
use crate::trouble::Trouble;
use std::io::writer;
use std::process::ExitCode;
use std::{env, io};

fn main(rt: HostRuntime) -> io::Result<ExitCode> {
    if let Err(trouble) = run(&rt) {
        eprintln!(rt; "speed: {trouble}")?;
        return Ok(ExitCode::FAILURE);
    }
    Ok(ExitCode::SUCCESS)
}

// Does what the arguments ask for.
fn run(rt: &HostRuntime) -> Result<(), Trouble> {
    let words = env::args(rt)?.skip(1).collect::<Vec<String>>(rt.alloc())?;
    match request_of(words.as_slice())? {
        Request::Fixed => show_fixed(rt),
        Request::Kinds => show_kinds(rt, &mut writer(rt)),
        Request::Growth => show_growth(rt, &mut writer(rt)),
        Request::Blocks(batch) => show_blocks(rt, batch),
        Request::Looks(batch) => show_looks(rt, batch),
    }
}
