//! Commits: the records of a journal.

use plain_data::{Sequence, Text};
use rdt_types::{DeltaMap, Outcome};

/// A transaction that ended its run and was added to the journal.
#[derive(Debug, Drop)]
pub struct Commit {
    /// Its place in the journal, from 1.
    pub number: u64,
    pub client: u32,
    /// Its place among its client's commits, from 1.
    pub seq: u64,
    /// The body as it came, without the blanks at its end.
    pub body: Text,
    pub outcome: Outcome,
    /// What it writes. There is nothing where the outcome isn't `ok`.
    pub deltas: DeltaMap,
}

/// A journal: commits in order.
pub type CommitList = Sequence<Commit>;
