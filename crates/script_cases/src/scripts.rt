//! Tries cases of scripts. Each is run by the top call of Diamond, `diamond_cli::diamond`, over objects in memory. What differs is
//! named, and a line says how many cases were tried.

ghost use Rattle.std.specs.Prelude.{◌<◌};

use case_rows::CaseError;
use case_rows::scripts::{Case, Difference, Reading, ends_case, find_difference};
use diamond_cli::diamond;
use dio_core::{MemSink, MemSource, NoDisk, NoListener};
use std::alloc::{AllocError, Global};
use std::io;
use std::sync::Wait;
use std::thread::Threads;

/// Runs a script, which is read and answered in pieces of this size. It gives the status, and the sink with the replies.
fn run<R: Threads + Wait + Sync>(
    threads: &R,
    alloc: Global,
    case: &Case,
    piece: usize,
) -> Result<(u8, MemSink), AllocError>
    requires { 0 < piece }
{
    let words = case.words();
    let mut source = MemSource::new(alloc, case.script.as_slice(), piece, &[])?;
    let mut sink = MemSink::new(alloc, piece, &[])?;
    let status = diamond(
        threads,
        alloc,
        &words,
        &mut source,
        &mut sink,
        &mut NoDisk::new(),
        &mut NoListener::new(),
    );
    Ok((status, sink))
}

/// How what comes of a case differs that is read and answered in pieces of this size.
fn find_in_pieces<R: Threads + Wait + Sync>(
    threads: &R,
    alloc: Global,
    case: &Case,
    piece: usize,
) -> Result<Option<Difference>, AllocError>
    requires { 0 < piece }
{
    let (status, sink) = run(threads, alloc, case, piece)?;
    find_difference(alloc, case, status, &sink)
}

/// Whether a case holds, read and answered in pieces of each size. The first difference is told.
fn holds<R: Threads + Wait + Sync>(rt: &HostRuntime, threads: &R, case: &Case) -> io::Result<bool> {
    for piece in [1, 3, 4096] {
        if let Some(found) = find_in_pieces(threads, rt.alloc(), case, piece)? {
            println!(rt; "{} (in pieces of {piece}): {found}", case.name)?;
            return Ok(false);
        }
    }
    Ok(true)
}

/// What came of the cases so far.
#[derive(Clone, Copy)]
struct Tally {
    /// How many cases were tried.
    tried: u32,
    /// Whether each of them holds, and each row is of a form.
    sound: bool,
}

impl Tally {
    /// Tries the case whose rows have been read, if there is one.
    fn finish<R: Threads + Wait + Sync>(
        &mut self,
        rt: &HostRuntime,
        threads: &R,
        reading: &mut Reading,
    ) -> io::Result<()> {
        if let Some(case) = reading.take() {
            self.tried = self.tried.saturating_add(1);
            self.sound &= holds(rt, threads, &case)?;
        }
        Ok(())
    }

    /// Goes on with a row. A case is tried where another begins, or a section does.
    fn go_on<'a, R: Threads + Wait + Sync>(
        &mut self,
        rt: &HostRuntime,
        threads: &R,
        reading: &mut Reading<'a>,
        row: &'a str,
    ) -> Result<(), CaseError> {
        if ends_case(row) {
            self.finish(rt, threads, reading)?;
        }
        reading.go_on(rt.alloc(), row)
    }
}

/// Tries the cases of a text, of which no row is read yet. The last case is then still to be tried.
fn try_rows<'a, R: Threads + Wait + Sync>(
    rt: &HostRuntime,
    threads: &R,
    reading: &mut Reading<'a>,
    text: &'a str,
) -> io::Result<Tally> {
    let mut tally = Tally {
        tried: 0,
        sound: true,
    };
    for (before, row) in text.lines().enumerate() {
        match tally.go_on(rt, threads, reading, row) {
            Ok(()) => {}
            Err(CaseError::NoForm) => {
                tally.sound = false;
                println!(rt; "a row of no form behind {before} others: {row}")?;
            }
            Err(CaseError::Fault(fault)) => return Err(fault),
        }
    }
    Ok(tally)
}

/// Tries all cases, and says how many there were. Whether all is as it is wanted.
fn try_told<'a, R: Threads + Wait + Sync>(
    rt: &HostRuntime,
    threads: &R,
    reading: &mut Reading<'a>,
    text: &'a str,
) -> io::Result<bool> {
    let mut tally = try_rows(rt, threads, reading, text)?;
    tally.finish(rt, threads, reading)?;
    println!(rt; "scripts: {} cases", tally.tried)?;
    Ok(tally.sound)
}

/// Tries all cases, and says how many there were. Whether all is as it is wanted.
pub(crate) fn try_all<R: Threads + Wait + Sync>(
    rt: &HostRuntime,
    threads: &R,
    text: &str,
) -> io::Result<bool> {
    try_told(rt, threads, &mut Reading::new(), text)
}
