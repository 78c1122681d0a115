//! Commits, as rows say them.

use crate::quoted::{CaseError, LONGEST_QUOTED, text_in};
use dtext::{next_part, read_address, read_outcome};
use plain_data::{OrNoMemory, Text};
use predictive_parsing::Cursor;
use rdt_types::{Address, Delta, DeltaMap, Kind, Outcome, WriteOp, add_delta, delta_of};
use std::alloc::{AllocError, Global};
use txn_lang::{Commit, CommitList};

/// The outcome that a row has.
pub(crate) fn outcome_in(alloc: Global, printed: &str) -> Result<Outcome, CaseError> {
    if printed.len() > LONGEST_QUOTED {
        return Err(CaseError::NoForm);
    }
    Ok(read_outcome(alloc, printed.as_bytes())?)
}

/// A commit that writes nothing yet. Its texts are its body in quotes, and its outcome behind ` => `.
pub(crate) fn commit_of(
    alloc: Global,
    number: u64,
    client: u32,
    seq: u64,
    texts: &str,
) -> Result<Commit, CaseError> {
    let Some((body, outcome)) = texts.split_once(" => ") else {
        return Err(CaseError::NoForm);
    };
    let body = text_in(alloc, body)?;
    let outcome = outcome_in(alloc, outcome)?;
    Ok(Commit {
        number,
        client,
        seq,
        body,
        outcome,
        deltas: DeltaMap::new(alloc),
    })
}

/// The write that a row has, beside an address of this kind.
fn part_at(alloc: Global, kind: Kind, bytes: &[u8]) -> Result<WriteOp, CaseError> {
    let mut cursor = Cursor::new(bytes);
    match next_part(alloc, kind, &mut cursor) {
        Ok(part) if cursor.len() == 0 => Ok(part),
        Ok(_) | Err(OrNoMemory::Cause(_)) => Err(CaseError::NoForm),
        Err(OrNoMemory::NoMemory) => Err(CaseError::from(AllocError)),
    }
}

/// What the write that a row has does, beside an address of this kind.
fn delta_at(alloc: Global, kind: Kind, bytes: &[u8]) -> Result<Delta, CaseError> {
    let part = part_at(alloc, kind, bytes)?;
    Ok(delta_of(alloc, &part)?)
}

/// Adds what is done at an address to deltas.
fn add_part(
    alloc: Global,
    deltas: &mut DeltaMap,
    address: Address,
    part: &[u8],
) -> Result<(), CaseError> {
    let delta = delta_at(alloc, address.kind, part)?;
    Ok(add_delta(alloc, deltas, address, delta)?)
}

/// Adds a write to deltas: an address, and behind a space what is done there.
pub(crate) fn add_write(
    alloc: Global,
    deltas: &mut DeltaMap,
    written: &str,
) -> Result<(), CaseError> {
    if written.len() > LONGEST_QUOTED {
        return Err(CaseError::NoForm);
    }
    let Some((address, part)) = written.split_once(" ") else {
        return Err(CaseError::NoForm);
    };
    let address = read_address(alloc, address.as_bytes())?;
    add_part(alloc, deltas, address, part.as_bytes())
}

/// A copy of a commit.
fn copy_of(commit: &Commit) -> Result<Commit, AllocError> {
    Ok(Commit {
        number: commit.number,
        client: commit.client,
        seq: commit.seq,
        body: commit.body.clone()?,
        outcome: commit.outcome.clone()?,
        deltas: commit.deltas.clone()?,
    })
}

/// Copies of commits.
pub(crate) fn copies_of(alloc: Global, commits: &[Commit]) -> Result<CommitList, AllocError> {
    let mut copies = CommitList::new(alloc);
    for commit in commits {
        copies.push(copy_of(commit)?)?;
    }
    Ok(copies)
}
