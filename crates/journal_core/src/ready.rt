//! What is handed to the journal.

use abort_witness::BasedList;
use plain_data::{ExactClone, Sequence, Text};
use txn_lang::Run;

/// The front at which a shard was prepared.
#[derive(Clone, Copy, Debug, PartialEq, Eq)]
pub struct PreparedFront {
    pub shard: u8,
    pub front: u64,
}

impl ExactClone for PreparedFront {
    ghost use Rattle.std.proofs.Common.{rules};

    ghost exact = { Prim.search rules };
}

/// The fronts of the shards that were prepared.
pub type FrontList = Sequence<PreparedFront>;

/// A transaction that has ended its run: all that its commit is made of, and what it is validated by.
#[derive(Debug, Drop)]
pub struct Ready {
    pub client: u32,
    /// The place of its commit among its client's, from 1.
    pub seq: u64,
    pub body: Text,
    pub run: Run,
    /// What the run observed, each with the front at which it was read, in the order of the run.
    pub based: BasedList,
    /// The front of each shard that holds an observed address.
    pub fronts: FrontList,
}
