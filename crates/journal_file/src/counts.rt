//! How many commits there are, and how many of each client.

ghost use Rattle.std.specs.Prelude.{◌≡◌, ◌+◌, ◌++◌, ◌∷◌, [], nat_eq, OnOk};
ghost use Rattle.txn_lang.specs.States.{Journal};
ghost use Rattle.journal_core.specs.Keeping.{IsNext};
ghost use Rattle.journal_file.specs.Chains.{counted, AreCounted};
ghost use Rattle.journal_file.specs.Commits.{is_next};

use plain_data::OrderedMap;
use std::alloc::{AllocError, Global};
use txn_lang::Commit;

/// How many commits there are, and the last seq of each client.
#[derive(Drop)]
pub(crate) struct Counts {
    all: u64,
    seqs: OrderedMap<u32, u64>,
}

/// Whether a number is the next behind so many.
fn is_behind(number: u64, count: u64) -> bool
    ensures { result ≡ nat_eq number (count + 1) }
{
    number > 0 && number - 1 == count
}

impl Counts {
    /// Of no commit.
    pub(crate) fn new(alloc: Global) -> Counts
        ensures { AreCounted [] result }
    {
        Counts {
            all: 0,
            seqs: OrderedMap::new(alloc),
        }
    }

    /// How many commits of a client there are.
    fn seq_of(&self, client: u32) -> u64
        ensures { result ≡ counted self.now.seqs client }
    {
        match self.seqs.get(&client) {
            None => 0,
            Some(seq) => *seq,
        }
    }

    /// Whether a commit has the next number, and the next seq of its client.
    pub(crate) fn is_next(&self, commit: &Commit) -> bool
        ensures { (before : Journal) → AreCounted before self.now → result ≡ is_next before commit.now }
    {
        is_behind(commit.number, self.all) && is_behind(commit.seq, self.seq_of(commit.client))
    }

    /// Counts a commit, which is the next.
    pub(crate) fn add(&mut self, commit: &Commit) -> Result<(), AllocError>
        ensures { (before : Journal) → AreCounted before self.old → IsNext before commit.now
            → OnOk result (AreCounted (before ++ commit.now ∷ []) self.new) }
    {
        self.seqs.insert(commit.client, commit.seq)?;
        self.all = commit.number;
        Ok(())
    }
}
