//! Tries cases of the journal in a file. Files are served by the top call, over a disk in memory. What differs is named, and a line
//! says how many cases there were, and how often something was tried.

mod acting;
mod serving;

use acting::act_in;
use case_rows::CaseError;
use case_rows::files::{Act, Reading};
use std::io;
use std::sync::Wait;
use std::thread::Threads;

/// What came of the cases so far.
#[derive(Clone, Copy)]
struct Tally {
    /// How often something was tried.
    tries: u32,
    /// Whether all of it was as it is wanted, and each row is of a form.
    sound: bool,
}

/// Does something in the case that is being read, and tells how what comes of it differs. Whether nothing does.
fn do_asked<R: Threads + Wait + Sync>(
    rt: &HostRuntime,
    threads: &R,
    reading: &mut Reading,
    asked: Act,
) -> Result<bool, CaseError> {
    let Some(case) = reading.case() else {
        return Err(CaseError::NoForm);
    };
    let Some(found) = act_in(threads, rt.alloc(), case, asked)? else {
        return Ok(true);
    };
    println!(rt; "{}: {found}", case.name)?;
    Ok(false)
}

impl Tally {
    /// Goes on with a row.
    fn go_on<'a, R: Threads + Wait + Sync>(
        &mut self,
        rt: &HostRuntime,
        threads: &R,
        reading: &mut Reading<'a>,
        row: &'a str,
    ) -> Result<(), CaseError> {
        if let Some(asked) = reading.go_on(rt.alloc(), row)? {
            self.tries = self.tries.saturating_add(1);
            self.sound &= do_asked(rt, threads, reading, asked)?;
        }
        Ok(())
    }
}

/// Tries the cases of a text, of which no row is read yet.
fn try_rows<'a, R: Threads + Wait + Sync>(
    rt: &HostRuntime,
    threads: &R,
    reading: &mut Reading<'a>,
    text: &'a str,
) -> io::Result<Tally> {
    let mut tally = Tally {
        tries: 0,
        sound: true,
    };
    for (before, row) in text.lines().enumerate() {
        match tally.go_on(rt, threads, reading, row) {
            Ok(()) => {}
            Err(CaseError::NoForm) => {
                tally.sound = false;
                println!(rt;
                    "a row of no form, or before what it says is done, behind {before} others: {row}"
                )?;
            }
            Err(CaseError::Fault(fault)) => return Err(fault),
        }
    }
    Ok(tally)
}

/// Tries the cases of a text, and says how many there were. Whether all were as they are wanted.
fn try_told<'a, R: Threads + Wait + Sync>(
    rt: &HostRuntime,
    threads: &R,
    reading: &mut Reading<'a>,
    text: &'a str,
) -> io::Result<bool> {
    let tally = try_rows(rt, threads, reading, text)?;
    let ended = reading.finish().is_ok();
    println!(rt; "files: {} cases, {} tries", reading.cases(), tally.tries)?;
    Ok(tally.sound && ended)
}

/// Tries the cases of a text, and says how many there were. Whether all were as they are wanted.
pub(crate) fn try_all<R: Threads + Wait + Sync>(
    rt: &HostRuntime,
    threads: &R,
    text: &str,
) -> io::Result<bool> {
    try_told(rt, threads, &mut Reading::new(rt.alloc()), text)
}
