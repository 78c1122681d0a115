//! What a session says over a file, and what has to come of it.

use crate::files::lines::{end_of, text_of};
use std::alloc::{AllocError, Global};

/// What a session says over a file, and what has to come of it.
#[derive(Drop)]
pub struct Talk {
    /// The lines that it says.
    pub(crate) script: Vec<u8>,
    /// What it is answered; nothing where it isn't served.
    pub(crate) replies: Vec<u8>,
    /// What the server writes at its end.
    pub(crate) line: Vec<u8>,
    /// With which status the server ends.
    pub(crate) status: u8,
}

/// What a session says that isn't served.
const UNHEARD: &[&str] = &["do emit 1;"];

impl Talk {
    /// A session that says these lines and is answered so, after which there are so many commits.
    pub(crate) fn answered(
        alloc: Global,
        lines: &[&str],
        replies: Vec<u8>,
        commits: usize,
    ) -> Result<Talk, AllocError> {
        Ok(Talk {
            script: text_of(alloc, lines)?,
            replies,
            line: end_of(alloc, commits)?,
            status: 0,
        })
    }

    /// A session that says these lines, and isn't served: the server ends with this status, and does nothing else.
    pub(crate) fn unheard(alloc: Global, lines: &[&str], status: u8) -> Result<Talk, AllocError> {
        Ok(Talk {
            script: text_of(alloc, lines)?,
            replies: Vec::new(alloc),
            line: Vec::new(alloc),
            status,
        })
    }

    /// A session that isn't served: the server ends with this status, and does nothing else.
    pub fn unserved(alloc: Global, status: u8) -> Result<Talk, AllocError> {
        Talk::unheard(alloc, UNHEARD, status)
    }
}
