//! A session of transactions, and at which calls of its disk it is tried.

use std::alloc::{AllocError, Global};

/// A session of transactions over a file.
#[derive(Clone, Copy)]
pub struct Session<'s> {
    /// The file as it is before.
    pub file: &'s [u8],
    /// Its lines, each a body behind a `do `.
    pub(crate) lines: &'s [&'s str],
    /// What each is answered; `#` stands for the commit's number.
    pub(crate) replies: &'s [&'s str],
    /// How many calls of the disk recover the file.
    pub(crate) recovery: u64,
    /// How many calls keep a commit.
    pub(crate) commit: u64,
}

/// What a session is tried with.
#[derive(Clone, Copy)]
pub enum Aim {
    /// No call of the disk fails, and a crash may come behind each.
    Crashes,
    /// This call fails.
    Fault(u64),
    /// This call fails, and all behind it.
    Gone(u64),
}

impl<'s> Session<'s> {
    /// How many transactions are whole after so many calls.
    pub(crate) fn place_of(self, calls: u64) -> usize {
        let behind = calls.saturating_sub(self.recovery);
        behind.checked_div(self.commit).unwrap_or(0) as usize
    }

    /// How many calls there are.
    pub(crate) fn all_calls(self) -> u64 {
        let keeping = self.commit.saturating_mul(self.lines.len() as u64);
        self.recovery.saturating_add(keeping)
    }

    /// What it is tried with: crashes, and faults of each call, alone and with all behind it. Where recovery fails, nothing is
    /// called behind it.
    pub fn aims(self, alloc: Global) -> Result<Vec<Aim>, AllocError> {
        let mut aims = Vec::new(alloc);
        aims.push(Aim::Crashes)?;
        for call in 0..self.all_calls() {
            aims.push(Aim::Fault(call))?;
            if call >= self.recovery {
                aims.push(Aim::Gone(call))?;
            }
        }
        Ok(aims)
    }
}

/// The body of a line.
pub(crate) fn body_of<'s>(line: &'s str) -> &'s str {
    line.strip_prefix("do ").unwrap_or(line)
}
