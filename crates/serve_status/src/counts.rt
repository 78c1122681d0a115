//! What is counted, by all threads at once.

use std::fmt;
use std::sync::atomic::{AtomicBool, AtomicU64, Ordering};

/// How many sessions and commits there are, whether links are accepted, and whether the serving is over. Nothing is known of an
/// atomic, so no clause says what is counted.
#[derive(Drop)]
pub struct Counts {
    sessions: AtomicU64,
    commits: AtomicU64,
    begun: AtomicBool,
    over: AtomicBool,
}

/// What the counts were at a moment.
#[derive(Clone, Copy, Debug, PartialEq, Eq)]
pub struct Seen {
    /// How many sessions there were.
    pub sessions: u64,
    /// How many commits there were, by the file that was read and the replies that were written until then; or None before links
    /// were accepted, since until then the file is read.
    pub commits: Option<u64>,
}

impl fmt::Display for Seen {
    fn fmt<W: fmt::Write>(&self, f: &mut fmt::Formatter<W>) -> fmt::Result {
        match self.commits {
            None => write!(f, "{} sessions", self.sessions),
            Some(commits) => write!(f, "{} sessions, {commits} commits", self.sessions),
        }
    }
}

impl Counts {
    /// No session yet, and no commit that is known of. No link is accepted.
    pub fn new() -> Counts {
        Counts {
            sessions: AtomicU64::new(0),
            commits: AtomicU64::new(0),
            begun: AtomicBool::new(false),
            over: AtomicBool::new(false),
        }
    }

    /// Links are accepted from now on, so all commits of a file were read.
    pub fn begin(&self) {
        self.begun.store(true, Ordering::SeqCst);
    }

    /// One session more.
    pub fn begin_session(&self) {
        self.sessions.fetch_add(1, Ordering::SeqCst);
    }

    /// One session less, of those that have begun.
    pub fn end_session(&self) {
        self.sessions.fetch_sub(1, Ordering::SeqCst);
    }

    /// There are so many commits, or more.
    pub fn raise_commits(&self, number: u64) {
        let _ = self.commits.fetch_update(
            Ordering::SeqCst,
            Ordering::SeqCst,
            |commits| if commits < number { Some(number) } else { None },
        );
    }

    /// The counts as they are.
    pub fn seen(&self) -> Seen {
        Seen {
            sessions: self.sessions.load(Ordering::SeqCst),
            commits: if self.begun.load(Ordering::SeqCst) {
                Some(self.commits.load(Ordering::SeqCst))
            } else {
                None
            },
        }
    }

    /// The serving is over: nobody has to be told any more.
    pub fn end(&self) {
        self.over.store(true, Ordering::SeqCst);
    }

    /// Whether it is over.
    pub fn are_over(&self) -> bool {
        self.over.load(Ordering::SeqCst)
    }
}
