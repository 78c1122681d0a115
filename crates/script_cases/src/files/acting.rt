//! What is done in a case, and how what comes of it differs.

use crate::files::serving::{find_at_each, serve_over};
use case_rows::files::{Act, Case, Difference, Refused, Talk};
use diamond_cli::NOT_JOURNAL;
use std::alloc::{AllocError, Global};
use std::sync::Wait;
use std::thread::Threads;

/// Serves what is said over the case's file. Its session is then over.
fn serve<R: Threads + Wait + Sync>(
    threads: &R,
    alloc: Global,
    case: &mut Case,
    talk: &Talk,
) -> Result<Option<Difference>, AllocError> {
    let found = serve_over(threads, alloc, &mut case.file, case.fails.as_slice(), talk)?;
    case.clear();
    Ok(found)
}

/// Serves the session.
fn serve_session<R: Threads + Wait + Sync>(
    threads: &R,
    alloc: Global,
    case: &mut Case,
    commits: usize,
) -> Result<Option<Difference>, AllocError> {
    let talk = case.talk(alloc, commits)?;
    serve(threads, alloc, case, &talk)
}

/// Serves where nobody is served.
fn serve_nobody<R: Threads + Wait + Sync>(
    threads: &R,
    alloc: Global,
    case: &mut Case,
    status: u8,
) -> Result<Option<Difference>, AllocError> {
    let talk = Talk::unserved(alloc, status)?;
    serve(threads, alloc, case, &talk)
}

/// Serves the session with a crash, and with a fault, at each call.
fn serve_each<R: Threads + Wait + Sync>(
    threads: &R,
    alloc: Global,
    case: &mut Case,
    recovery: u64,
    commit: u64,
) -> Result<Option<Difference>, AllocError> {
    let found = find_at_each(threads, alloc, case.session(recovery, commit))?;
    case.clear();
    Ok(found)
}

/// Whether a file that is no journal is left as it was by a server, to which what a recovery has left of it is handed.
fn find_served<R: Threads + Wait + Sync>(
    threads: &R,
    alloc: Global,
    file: &[u8],
    refused: &mut Refused,
) -> Result<Option<Difference>, AllocError> {
    let talk = Talk::unserved(alloc, NOT_JOURNAL)?;
    let served = serve_over(threads, alloc, &mut refused.left, &[], &talk)?;
    Ok(if served.is_none() && refused.left.as_slice() != file {
        Some(Difference::Changed)
    } else {
        served
    })
}

/// How it differs what is made of a file that is no journal: it is left as it was by a recovery, by who only reads, and by a
/// server.
fn refuse<R: Threads + Wait + Sync>(
    threads: &R,
    alloc: Global,
    case: &Case,
    at: u64,
) -> Result<Option<Difference>, AllocError> {
    let mut refused = case.refuse(alloc, at)?;
    match refused.difference {
        Some(found) => Ok(Some(found)),
        None => find_served(threads, alloc, case.file.as_slice(), &mut refused),
    }
}

/// Does something, and gives how what comes of it differs.
pub(crate) fn act_in<R: Threads + Wait + Sync>(
    threads: &R,
    alloc: Global,
    case: &mut Case,
    act: Act,
) -> Result<Option<Difference>, AllocError> {
    match act {
        Act::Recovers(end) => case.recover(alloc, end),
        Act::Refused(at) => refuse(threads, alloc, case, at),
        Act::Served(commits) => serve_session(threads, alloc, case, commits),
        Act::Unserved(status) => serve_nobody(threads, alloc, case, status),
        Act::Each { recovery, commit } => serve_each(threads, alloc, case, recovery, commit),
        Act::Holds => Ok(case.hold()),
        Act::Long(length) => Ok(case.long(length)),
    }
}
