//! The objects in memory over which a session is served, and how what came of it differs.

use crate::files::difference::Difference;
use crate::files::talk::Talk;
use dio_core::{MemLink, MemLinks, MemListener, MemSink, MemSource};
use std::alloc::{AllocError, Global};

/// The objects in memory over which one session is served, but for the disk.
#[derive(Drop)]
pub struct Stage {
    /// It has no byte.
    pub source: MemSource,
    /// It takes what the server writes.
    pub sink: MemSink,
    /// Its one link says what the session says.
    pub listener: MemListener,
}

/// The words by which one session is served over a file.
pub const WORDS: &[&str] = &["serve", "--address", "a", "--sessions", "1", "--file", "f"];

/// A listener with the link of one session, which says this.
fn listener_of(alloc: Global, script: &[u8]) -> Result<MemListener, AllocError> {
    let mut links = MemLinks::new(alloc);
    links.push(MemLink::new(alloc, script, 16, &[], &[])?)?;
    Ok(MemListener::new(alloc, links))
}

/// Whether the session was answered so, or nothing where it wasn't served.
fn took(listener: &MemListener, replies: &[u8]) -> bool {
    match listener.back().as_slice().first() {
        Some((link, _)) => link.sink.taken() == replies,
        None => replies.is_empty(),
    }
}

impl Stage {
    /// The objects for a session.
    pub fn new(alloc: Global, talk: &Talk) -> Result<Stage, AllocError> {
        Ok(Stage {
            source: MemSource::new(alloc, b"", 1, &[])?,
            sink: MemSink::new(alloc, 16, &[])?,
            listener: listener_of(alloc, talk.script.as_slice())?,
        })
    }

    /// How what came of the session differs, where the server ended with this status.
    pub fn difference(&self, talk: &Talk, status: u8) -> Option<Difference> {
        if status != talk.status {
            Some(Difference::Status(status))
        } else if self.sink.taken() != talk.line.as_slice() {
            Some(Difference::Line)
        } else if !took(&self.listener, talk.replies.as_slice()) {
            Some(Difference::Replies)
        } else {
            None
        }
    }
}
