//! What is audited, and what comes of it.

use crate::audits::case::Given;
use crate::audits::commits::copies_of;
use crate::quoted::{CaseError, text_in};
use audit_core::{Verdict, audit, report};
use commit_file::{MemDisk, Torn};
use plain_data::Text;
use std::alloc::{AllocError, Global};
use std::fmt;
use txn_lang::{Commit, CommitList};

/// What came of an audit, where it isn't what is wanted.
#[derive(Debug, Drop)]
pub enum Found {
    /// This was told.
    Told(Text),
    /// The first commits, so many, came to this verdict.
    Prefix(usize, Verdict),
    /// The status was this, and this was written.
    Ended(u8, Text),
    /// The file was changed.
    Changed,
}

/// Adds bytes as characters.
fn write_bytes<W: fmt::Write>(f: &mut fmt::Formatter<W>, bytes: &[u8]) -> fmt::Result {
    for byte in bytes {
        f.write_char(*byte as char)?;
    }
    Ok(())
}

impl fmt::Display for Found {
    fn fmt<W: fmt::Write>(&self, f: &mut fmt::Formatter<W>) -> fmt::Result {
        match self {
            Found::Told(text) => write_bytes(f, text.as_slice()),
            Found::Prefix(count, verdict) => write!(f, "the first {count}: {verdict:?}"),
            Found::Ended(status, text) => {
                write!(f, "status {status}, ")?;
                write_bytes(f, text.as_slice())
            }
            Found::Changed => write!(f, "the file was changed"),
        }
    }
}

/// The number that a word says.
fn number_in(word: &str) -> Result<u64, CaseError> {
    match word.parse::<u64>() {
        Ok(number) => Ok(number),
        Err(_) => Err(CaseError::NoForm),
    }
}

/// What the audit of commits tells, where it isn't this.
fn audit_list(
    alloc: Global,
    commits: &CommitList,
    at: Option<&str>,
    wanted: &[u8],
) -> Result<Option<Found>, CaseError> {
    let at = match at {
        Some(word) => Some(number_in(word)?),
        None => None,
    };
    let verdict = audit(alloc, commits)?;
    let told = report(alloc, commits, verdict, at)?;
    if told.as_slice() == wanted {
        return Ok(None);
    }
    Ok(Some(Found::Told(told)))
}

/// How many of the first commits aren't legal, if there are any such.
fn audit_prefixes(alloc: Global, commits: &[Commit]) -> Result<Option<Found>, AllocError> {
    for count in 0..=commits.len() {
        let first = copies_of(alloc, &commits[..count])?;
        let verdict = audit(alloc, &first)?;
        if verdict != Verdict::Legal(count as u64) {
            return Ok(Some(Found::Prefix(count, verdict)));
        }
    }
    Ok(None)
}

/// The file of a disk, as it reads.
fn file_of(disk: &MemDisk) -> Result<Text, AllocError> {
    disk.image(disk.calls(), Torn::New)
}

/// With which status an audit of a file is to end, and what it is to write: a text in quotes.
#[derive(Clone, Copy)]
pub struct Ending<'a> {
    /// The status.
    pub status: u8,
    /// What is written, in quotes.
    pub quoted: &'a str,
}

/// How an audit of a file ended.
#[derive(Clone, Copy)]
pub struct Ended<'a> {
    /// Its status.
    pub status: u8,
    /// What was written.
    pub written: &'a [u8],
}

/// The file was changed, unless a disk reads as it was.
fn find_changed(file: &[u8], disk: &MemDisk) -> Result<Option<Found>, AllocError> {
    Ok(if file_of(disk)?.as_slice() == file {
        None
    } else {
        Some(Found::Changed)
    })
}

impl Given {
    /// What the audit of the commits tells, with the state after so many where that is asked for, if it isn't this text in quotes.
    pub fn audit_list(
        &self,
        alloc: Global,
        at: Option<&str>,
        quoted: &str,
    ) -> Result<Option<Found>, CaseError> {
        let wanted = text_in(alloc, quoted)?;
        let commits = copies_of(alloc, self.commits.as_slice())?;
        audit_list(alloc, &commits, at, wanted.as_slice())
    }

    /// How many of the first commits aren't legal, if there are any such.
    pub fn audit_prefixes(&self, alloc: Global) -> Result<Option<Found>, AllocError> {
        audit_prefixes(alloc, self.commits.as_slice())
    }

    /// What the audit of the file came to, where it isn't what is wanted, or where the file was changed: this disk is left.
    pub fn find_ended(
        &self,
        alloc: Global,
        disk: &MemDisk,
        ended: Ended,
        wanted: Ending,
    ) -> Result<Option<Found>, CaseError> {
        let Ended { status, written } = ended;
        let text = text_in(alloc, wanted.quoted)?;
        if status != wanted.status || written != text.as_slice() {
            return Ok(Some(Found::Ended(status, Text::from_slice(alloc, written)?)));
        }
        Ok(find_changed(self.file.as_slice(), disk)?)
    }
}
