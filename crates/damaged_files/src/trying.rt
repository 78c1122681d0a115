//! What recovery makes of a file, held against what the definition says of its bytes.

use crate::commits::Commits;
use commit_file::{MemDisk, RecoverError, Torn};
use file_oracle::{Kept, Verdict, judge};
use journal_file::{Recovered, read_kept, recover};
use plain_data::Text;
use record_code::encode;
use std::alloc::{AllocError, Global};
use txn_lang::CommitList;

/// What came of a file.
#[derive(Clone, Copy)]
pub(crate) enum Found {
    /// Commits are kept, and the file stays as it is.
    Kept,
    /// Commits are kept, and the file is another one then.
    Mended,
    /// It is no journal, and stays as it is.
    Refused,
    Differs(Difference),
}

/// How it differs from what the definition says.
#[derive(Clone, Copy, Debug)]
pub(crate) enum Difference {
    /// Something is kept of what is no journal, or nothing of one, or it is refused from another place on.
    Refusal,
    /// Other commits are kept.
    Commits,
    /// They end elsewhere.
    End,
    /// Other bytes are left, or would be by a crash.
    Left,
    /// Who only reads finds something else, or changes the file.
    Reading,
}

/// Whether commits are those that payloads stand for.
fn have_payloads(
    alloc: Global,
    commits: &CommitList,
    payloads: &[Text],
) -> Result<bool, AllocError> {
    if commits.len() != payloads.len() {
        return Ok(false);
    }
    for (commit, payload) in commits.as_slice().iter().zip(payloads) {
        if encode(alloc, commit)? != *payload {
            return Ok(false);
        }
    }
    Ok(true)
}

/// Whether a disk has this file, and a crash leaves it.
fn rests(disk: &MemDisk, file: &[u8]) -> Result<bool, AllocError> {
    let reads = disk.image(disk.calls(), Torn::New)?;
    let synced = disk.image(disk.calls(), Torn::Old)?;
    Ok(reads.as_slice() == file && synced.as_slice() == file)
}

/// Whether an answer is that a file is no journal from this place on.
fn is_refused<T>(answer: &Result<T, RecoverError>, at: u64) -> bool {
    matches!(answer, Err(RecoverError::NotJournal(found)) if *found == at)
}

/// How what is recovered differs from what is kept.
fn differs(
    alloc: Global,
    disk: &MemDisk,
    kept: &Kept,
    recovered: &Recovered,
) -> Result<Option<Difference>, AllocError> {
    if !have_payloads(alloc, &recovered.commits, kept.payloads.as_slice())? {
        return Ok(Some(Difference::Commits));
    }
    if recovered.end != kept.end {
        return Ok(Some(Difference::End));
    }
    Ok(if rests(disk, kept.file.as_slice())? {
        None
    } else {
        Some(Difference::Left)
    })
}

/// How the recovery of a file differs from a verdict.
fn recovery_differs(
    alloc: Global,
    file: &[u8],
    verdict: &Verdict,
) -> Result<Option<Difference>, AllocError> {
    let mut disk = MemDisk::new(alloc, file, &[])?;
    let answer = recover(alloc, &mut disk);
    match (verdict, &answer) {
        (Verdict::Kept(kept), Ok(recovered)) => differs(alloc, &disk, kept, recovered),
        (Verdict::NotJournal(at), _) if is_refused(&answer, *at) => Ok(if rests(&disk, file)? {
            None
        } else {
            Some(Difference::Left)
        }),
        _ => Ok(Some(Difference::Refusal)),
    }
}

/// Whether who only reads a file finds what a verdict says, and leaves it as it is.
fn is_read(alloc: Global, file: &[u8], verdict: &Verdict) -> Result<bool, AllocError> {
    let mut disk = MemDisk::new(alloc, file, &[])?;
    let answer = read_kept(alloc, &mut disk);
    let same = match (verdict, &answer) {
        (Verdict::Kept(kept), Ok(commits)) => {
            have_payloads(alloc, commits, kept.payloads.as_slice())?
        }
        (Verdict::NotJournal(at), _) => is_refused(&answer, *at),
        _ => false,
    };
    Ok(same && rests(&disk, file)?)
}

/// What came of a file of which a verdict is true.
fn named(file: &[u8], verdict: &Verdict) -> Found {
    match verdict {
        Verdict::Kept(kept) if kept.file.as_slice() == file => Found::Kept,
        Verdict::Kept(_) => Found::Mended,
        Verdict::NotJournal(_) => Found::Refused,
    }
}

/// What recovery makes of a file.
pub(crate) fn find(alloc: Global, file: &[u8]) -> Result<Found, AllocError> {
    let verdict = judge(alloc, &Commits::new(alloc), file)?;
    if let Some(difference) = recovery_differs(alloc, file, &verdict)? {
        return Ok(Found::Differs(difference));
    }
    Ok(if is_read(alloc, file, &verdict)? {
        named(file, &verdict)
    } else {
        Found::Differs(Difference::Reading)
    })
}
