//! A case: commits, a file, and calls of its disk that fail.

use crate::audits::commits::{add_write, commit_of, copies_of, outcome_in};
use crate::audits::row::{Change, Row};
use crate::quoted::{CaseError, text_in};
use plain_data::Text;
use rdt_types::Outcome;
use std::alloc::{AllocError, Global};
use txn_lang::Commit;

/// Commits and a file, and which calls of the disk fail.
#[derive(Drop)]
pub struct Given {
    alloc: Global,
    pub(crate) commits: Vec<Commit>,
    /// The file.
    pub file: Text,
    /// The calls of the disk that fail.
    pub fails: Vec<u64>,
}

/// The commit at a place, counted from 1.
fn commit_at(commits: &mut Vec<Commit>, place: usize) -> Result<&mut Commit, CaseError> {
    match commits.get_mut(place.wrapping_sub(1)) {
        Some(commit) => Ok(commit),
        None => Err(CaseError::NoForm),
    }
}

/// Puts a byte in the place of another.
fn set_byte(file: &mut Text, place: usize, byte: u8) -> Result<(), CaseError> {
    if place >= file.len() {
        return Err(CaseError::NoForm);
    }
    file.set(place, byte);
    Ok(())
}

/// Adds a text in quotes.
fn add_text(alloc: Global, file: &mut Text, quoted: &str) -> Result<(), CaseError> {
    let more = text_in(alloc, quoted)?;
    file.extend_from_slice(more.as_slice())?;
    Ok(())
}

/// Adds one thing more.
fn add_to<T: Drop>(all: &mut Vec<T>, one: T) -> Result<(), AllocError> {
    all.push(one)?;
    Ok(())
}

/// Puts a text in quotes in the place of another.
fn set_text(alloc: Global, text: &mut Text, quoted: &str) -> Result<(), CaseError> {
    *text = text_in(alloc, quoted)?;
    Ok(())
}

/// Puts an outcome in the place of another.
fn set_outcome(alloc: Global, outcome: &mut Outcome, printed: &str) -> Result<(), CaseError> {
    *outcome = outcome_in(alloc, printed)?;
    Ok(())
}

/// Changes a commit.
fn change_commit(alloc: Global, commit: &mut Commit, change: Change) -> Result<(), CaseError> {
    match change {
        Change::Number(number) => commit.number = number,
        Change::Client(client) => commit.client = client,
        Change::Seq(seq) => commit.seq = seq,
        Change::Body(body) => return set_text(alloc, &mut commit.body, body),
        Change::Outcome(outcome) => return set_outcome(alloc, &mut commit.outcome, outcome),
        Change::Adds(written) => return add_write(alloc, &mut commit.deltas, written),
    }
    Ok(())
}

impl Given {
    /// No commit, no byte, and no fault.
    pub(crate) fn new(alloc: Global) -> Given {
        Given {
            alloc,
            commits: Vec::new(alloc),
            file: Text::new(alloc),
            fails: Vec::new(alloc),
        }
    }

    /// The same once more.
    pub(crate) fn copy(&self) -> Result<Given, AllocError> {
        Ok(Given {
            alloc: self.alloc,
            commits: copies_of(self.alloc, self.commits.as_slice())?.into_vec(),
            file: self.file.clone()?,
            fails: self.fails.clone()?,
        })
    }

    /// Adds a write to the last commit.
    fn add_last(&mut self, alloc: Global, written: &str) -> Result<(), CaseError> {
        let last = self.commits.len();
        let commit = commit_at(&mut self.commits, last)?;
        add_write(alloc, &mut commit.deltas, written)
    }

    /// Changes the commit at a place.
    fn change_at(&mut self, alloc: Global, place: usize, change: Change) -> Result<(), CaseError> {
        let commit = commit_at(&mut self.commits, place)?;
        change_commit(alloc, commit, change)
    }

    /// Changes the commits, the file or the faults.
    pub(crate) fn change(&mut self, alloc: Global, row: Row) -> Result<(), CaseError> {
        match row {
            Row::Commit(number, client, seq, texts) => {
                let commit = commit_of(alloc, number, client, seq, texts)?;
                Ok(add_to(&mut self.commits, commit)?)
            }
            Row::Writes(written) => self.add_last(alloc, written),
            Row::Change(place, change) => self.change_at(alloc, place, change),
            Row::More(text) => add_text(alloc, &mut self.file, text),
            Row::Cut(count) => {
                self.file.truncate(count);
                Ok(())
            }
            Row::Set(place, byte) => set_byte(&mut self.file, place, byte),
            Row::Fails(call) => Ok(add_to(&mut self.fails, call)?),
            Row::Blank | Row::Section | Row::Case(_) | Row::Act(_) => Err(CaseError::NoForm),
        }
    }
}

/// A case with its name.
#[derive(Drop)]
pub struct Case<'a> {
    /// Its name.
    pub name: &'a str,
    /// What it has.
    pub given: Given,
}
