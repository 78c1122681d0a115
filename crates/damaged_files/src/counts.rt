//! What came of how many files.

use crate::trying::Found;
use std::fmt;

/// What came of how many files.
#[derive(Clone, Copy)]
pub(crate) struct Counts {
    kept: u32,
    mended: u32,
    refused: u32,
    pub(crate) differ: u32,
}

impl Counts {
    /// No file.
    pub(crate) fn new() -> Counts {
        Counts {
            kept: 0,
            mended: 0,
            refused: 0,
            differ: 0,
        }
    }

    /// Counts one file more.
    pub(crate) fn add(&mut self, found: Found) {
        match found {
            Found::Kept => self.kept = self.kept.saturating_add(1),
            Found::Mended => self.mended = self.mended.saturating_add(1),
            Found::Refused => self.refused = self.refused.saturating_add(1),
            Found::Differs(_) => self.differ = self.differ.saturating_add(1),
        }
    }

    /// Counts the files that others counted.
    pub(crate) fn join(&mut self, more: Counts) {
        self.kept = self.kept.saturating_add(more.kept);
        self.mended = self.mended.saturating_add(more.mended);
        self.refused = self.refused.saturating_add(more.refused);
        self.differ = self.differ.saturating_add(more.differ);
    }
}

impl fmt::Display for Counts {
    fn fmt<W: fmt::Write>(&self, f: &mut fmt::Formatter<W>) -> fmt::Result {
        let files = self
            .kept
            .saturating_add(self.mended)
            .saturating_add(self.refused)
            .saturating_add(self.differ);
        write!(
            f,
            "{files} files, {} kept, {} mended, {} refused",
            self.kept, self.mended, self.refused
        )
    }
}
