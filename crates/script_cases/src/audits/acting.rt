//! What is audited in a case, and what comes of it.

ghost use Rattle.std.specs.Prelude.{Some};
ghost use Rattle.dio_core.specs.Disks.{NothingPending};

use case_rows::CaseError;
use case_rows::audits::{Act, Ended, Ending, Found, Given};
use commit_file::MemDisk;
use diamond_cli::diamond;
use dio_core::{MemSink, MemSource, NoListener};
use std::alloc::{AllocError, Global};
use std::sync::Wait;
use std::thread::Threads;

/// Audits the file of a disk by the words of a command.
fn run<R: Threads + Wait + Sync>(
    threads: &R,
    alloc: Global,
    disk: &mut MemDisk,
    words: &[&str],
    sink: &mut MemSink,
) -> Result<u8, AllocError>
    requires { NothingPending (Some disk.old.present) }
{
    let mut source = MemSource::new(alloc, b"", 1, &[])?;
    Ok(diamond(
        threads,
        alloc,
        words,
        &mut source,
        sink,
        disk,
        &mut NoListener::new(),
    ))
}

/// Audits the file of a disk. The state after so many commits is asked for, if that is given.
fn audit<R: Threads + Wait + Sync>(
    threads: &R,
    alloc: Global,
    disk: &mut MemDisk,
    at: Option<&str>,
    sink: &mut MemSink,
) -> Result<u8, AllocError>
    requires { NothingPending (Some disk.old.present) }
{
    match at {
        None => run(threads, alloc, disk, &["audit", "--file", "f"], sink),
        Some(at) => run(
            threads,
            alloc,
            disk,
            &["audit", "--file", "f", "--at", at],
            sink,
        ),
    }
}

/// What the audit of the file comes to, where it doesn't end so, or where the file was changed.
fn audit_file<R: Threads + Wait + Sync>(
    threads: &R,
    alloc: Global,
    given: &Given,
    at: Option<&str>,
    wanted: Ending<'_>,
) -> Result<Option<Found>, CaseError> {
    let mut disk = MemDisk::new(alloc, given.file.as_slice(), given.fails.as_slice())?;
    let mut sink = MemSink::new(alloc, 16, &[])?;
    let status = audit(threads, alloc, &mut disk, at, &mut sink)?;
    let ended = Ended {
        status,
        written: sink.taken(),
    };
    given.find_ended(alloc, &disk, ended, wanted)
}

/// Does something, and gives what came of it where that differs.
pub(crate) fn act_in<R: Threads + Wait + Sync>(
    threads: &R,
    alloc: Global,
    given: &Given,
    act: Act,
) -> Result<Option<Found>, CaseError> {
    match act {
        Act::List(at, text) => given.audit_list(alloc, at, text),
        Act::Prefixes => Ok(given.audit_prefixes(alloc)?),
        Act::File(at, status, quoted) => {
            let wanted = Ending { status, quoted };
            audit_file(threads, alloc, given, at, wanted)
        }
    }
}
