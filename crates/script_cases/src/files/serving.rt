//! A session that is served over a file on a disk.

ghost use Rattle.std.specs.Prelude.{Some};
ghost use Rattle.dio_core.specs.Disks.{NothingPending};

use case_rows::files::{Aim, Attempt, Difference, Session, Stage, Talk, WORDS, as_it_reads};
use commit_file::MemDisk;
use diamond_cli::{DISK_FAULT, diamond};
use plain_data::Text;
use std::alloc::{AllocError, Global};
use std::sync::Wait;
use std::thread::Threads;

/// Serves a session, and gives how what comes of it differs.
fn serve<R: Threads + Wait + Sync>(
    threads: &R,
    alloc: Global,
    disk: &mut MemDisk,
    talk: &Talk,
) -> Result<Option<Difference>, AllocError>
    requires { NothingPending (Some disk.old.present) }
{
    let mut stage = Stage::new(alloc, talk)?;
    let status = diamond(
        threads,
        alloc,
        WORDS,
        &mut stage.source,
        &mut stage.sink,
        disk,
        &mut stage.listener,
    );
    Ok(stage.difference(talk, status))
}

/// How a session differs that is served over a disk on which these calls fail. The file is then what it leaves.
pub(crate) fn serve_over<R: Threads + Wait + Sync>(
    threads: &R,
    alloc: Global,
    file: &mut Text,
    fails: &[u64],
    talk: &Talk,
) -> Result<Option<Difference>, AllocError> {
    let mut disk = MemDisk::new(alloc, file.as_slice(), fails)?;
    let found = serve(threads, alloc, &mut disk, talk)?;
    *file = as_it_reads(&disk)?;
    Ok(found)
}

/// How an attempt differs over a file.
fn find_attempted<R: Threads + Wait + Sync>(
    threads: &R,
    alloc: Global,
    file: &[u8],
    attempt: &Attempt,
) -> Result<Option<Difference>, AllocError> {
    let mut disk = MemDisk::new(alloc, file, attempt.fails.as_slice())?;
    let served = serve(threads, alloc, &mut disk, &attempt.talk)?;
    attempt.difference(alloc, &disk, served)
}

/// How a session differs that is tried so.
fn find_aimed<R: Threads + Wait + Sync>(
    threads: &R,
    alloc: Global,
    session: Session,
    aim: Aim,
) -> Result<Option<Difference>, AllocError> {
    let attempt = Attempt::new(alloc, session, aim, DISK_FAULT)?;
    find_attempted(threads, alloc, session.file, &attempt)
}

/// How a session differs with a crash, and with a fault, at each call.
pub(crate) fn find_at_each<R: Threads + Wait + Sync>(
    threads: &R,
    alloc: Global,
    session: Session,
) -> Result<Option<Difference>, AllocError> {
    let aims = session.aims(alloc)?;
    for aim in aims.as_slice() {
        let found = find_aimed(threads, alloc, session, *aim)?;
        if found.is_some() {
            return Ok(found);
        }
    }
    Ok(None)
}
