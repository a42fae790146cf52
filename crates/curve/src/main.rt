// Takes blocks of one of the standard's waveforms from random bits to counted dots on an error curve.
#![tactic(auto)]

mod calls;
mod checksum;
mod choice;
mod counting;
mod plot;
mod request;
mod sent;
mod show;
mod svg;
mod trial;
mod trouble;

use crate::request::{Request, request_of};
use crate::show::{show_curve, show_rows, show_sent, show_time};
use crate::trouble::Trouble;
use std::process::ExitCode;
use std::{env, io};

fn main(rt: HostRuntime) -> io::Result<ExitCode> {
    if let Err(trouble) = run(&rt) {
        eprintln!(rt; "curve: {trouble}")?;
        return Ok(ExitCode::FAILURE);
    }
    Ok(ExitCode::SUCCESS)
}

// Does what the arguments ask for.
fn run(rt: &HostRuntime) -> Result<(), Trouble> {
    let words = env::args(rt)?.skip(1).collect::<Vec<String>>(rt.alloc())?;
    match request_of(words.as_slice())? {
        Request::Rows => Ok(show_rows(rt)?),
        Request::Time => show_time(rt),
        Request::Send(choice) => show_sent(rt, choice),
        Request::Curve(run) => show_curve(rt, run),
    }
}
