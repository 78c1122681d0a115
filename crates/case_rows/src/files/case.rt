//! A case: a file, and what is done with it.

use crate::files::difference::Difference;
use crate::files::lines::text_of;
use crate::files::recovering::recovers;
use crate::files::refusing::{Refused, make_refused};
use crate::files::row::Row;
use crate::files::session::Session;
use crate::files::talk::Talk;
use crate::quoted::{CaseError, text_in};
use plain_data::Text;
use std::alloc::{AllocError, Global};

/// The first place at which bytes differ.
fn first_that_differs(some: &[u8], others: &[u8]) -> Option<usize> {
    let same = some
        .iter()
        .zip(others)
        .take_while(|(one, other)| one == other)
        .count();
    if same < some.len().max(others.len()) {
        Some(same)
    } else {
        None
    }
}

/// Adds one thing more.
fn add_to<T: Copy + Drop>(all: &mut Vec<T>, one: T) -> Result<(), AllocError> {
    all.push(one)?;
    Ok(())
}

/// A file, and what is to be done with it.
#[derive(Drop)]
pub struct Case<'a> {
    /// Its name.
    pub name: &'a str,
    /// The file as it is now.
    pub file: Text,
    /// The bytes that it is to have.
    like: Text,
    /// The bodies of the commits that are to be kept.
    bodies: Vec<&'a str>,
    /// The calls of the disk that fail in the next session.
    pub fails: Vec<u64>,
    /// What the session says, and is answered.
    lines: Vec<&'a str>,
    replies: Vec<&'a str>,
}

impl<'a> Case<'a> {
    /// A case with a file of no byte.
    pub(crate) fn new(alloc: Global, name: &'a str) -> Case<'a> {
        Case {
            name,
            file: Text::new(alloc),
            like: Text::new(alloc),
            bodies: Vec::new(alloc),
            fails: Vec::new(alloc),
            lines: Vec::new(alloc),
            replies: Vec::new(alloc),
        }
    }

    /// Whether something is said that is not done.
    pub(crate) fn is_begun(&self) -> bool {
        !self.fails.is_empty() || !self.lines.is_empty() || !self.like.is_empty()
    }

    /// Adds what a row says.
    pub(crate) fn add(&mut self, alloc: Global, row: Row<'a>) -> Result<(), CaseError> {
        match row {
            Row::More(quoted) => self
                .file
                .extend_from_slice(text_in(alloc, quoted)?.as_slice())?,
            Row::Like(quoted) => self
                .like
                .extend_from_slice(text_in(alloc, quoted)?.as_slice())?,
            Row::Cut(length) => self.file.truncate(length),
            Row::Set(place, byte) => self.set(place, byte)?,
            Row::Kept(body) => add_to(&mut self.bodies, body)?,
            Row::Fails(call) => add_to(&mut self.fails, call)?,
            Row::Line(line, reply) => {
                add_to(&mut self.lines, line)?;
                add_to(&mut self.replies, reply)?;
            }
            Row::Blank | Row::Case(_) | Row::Section | Row::Whole(_) | Row::Begin | Row::Act(_) => {
                return Err(CaseError::NoForm);
            }
        }
        Ok(())
    }

    /// Sets a byte of the file.
    fn set(&mut self, place: usize, byte: u8) -> Result<(), CaseError> {
        if place >= self.file.len() {
            return Err(CaseError::NoForm);
        }
        self.file.set(place, byte);
        Ok(())
    }

    /// Looks whether the file has so many bytes.
    pub fn long(&self, length: usize) -> Option<Difference> {
        if self.file.len() == length {
            None
        } else {
            Some(Difference::Long(self.file.len()))
        }
    }

    /// Looks whether the file has the bytes that it is to have.
    pub fn hold(&mut self) -> Option<Difference> {
        let place = first_that_differs(self.file.as_slice(), self.like.as_slice());
        self.like.truncate(0);
        place.map(Difference::Byte)
    }

    /// What the session says, and what has to come of it where there are so many commits then.
    pub fn talk(&self, alloc: Global, commits: usize) -> Result<Talk, AllocError> {
        let replies = text_of(alloc, self.replies.as_slice())?;
        Talk::answered(alloc, self.lines.as_slice(), replies, commits)
    }

    /// The session, of which so many calls recover the file, and so many keep a commit.
    pub fn session(&self, recovery: u64, commit: u64) -> Session<'_> {
        Session {
            file: self.file.as_slice(),
            lines: self.lines.as_slice(),
            replies: self.replies.as_slice(),
            recovery,
            commit,
        }
    }

    /// Looks whether the file is recovered to the commits that are to be kept, which end there.
    pub fn recover(&mut self, alloc: Global, end: u64) -> Result<Option<Difference>, AllocError> {
        recovers(alloc, &mut self.file, self.bodies.as_slice(), end)
    }

    /// Looks whether the file is no journal from there on, to a recovery and to who only reads.
    pub fn refuse(&self, alloc: Global, at: u64) -> Result<Refused, AllocError> {
        make_refused(alloc, self.file.as_slice(), at)
    }

    /// The session is over.
    pub fn clear(&mut self) {
        self.fails.clear();
        self.lines.clear();
        self.replies.clear();
    }
}
