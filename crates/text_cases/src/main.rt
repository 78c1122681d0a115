//! Tries the texts of the file `stdin`, a row a text: each is read as its row says, and is to come to what its row says. Rows
//! that don't hold are printed, with what came instead, and then how many rows there are.
//!
//! The form of a row stands at the head of that file, and in `row`. `reading` reads a text, one function a kind.
#![tactic(auto)]

mod answer;
mod pieces;
mod plan;
mod reading;
mod report;
mod row;
mod verb;

use crate::report::Report;
use dio_core::{LineFault, StdSink, StdSource, write_all};
use std::io;
use std::process::ExitCode;

/// Tries all rows of the input, and prints what is to be told. Whether all hold.
fn run(rt: &HostRuntime) -> Result<bool, LineFault> {
    let mut source = StdSource::new(rt.alloc(), rt.reader())?;
    let mut report = Report::new(rt.alloc());
    report.read(rt.alloc(), &mut source)?;
    report.end()?;
    let is_written = write_all(&mut StdSink::new(io::writer(rt)), report.as_slice());
    Ok(is_written && report.all_hold())
}

fn main(rt: HostRuntime) -> ExitCode {
    match run(&rt) {
        Ok(true) => ExitCode::SUCCESS,
        _ => ExitCode::FAILURE,
    }
}
