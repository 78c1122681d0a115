//! Holds: what a live one is, and who is barred by it. `specs/Holds.antt` says which commits are holds, and for how long.

use txn_lang::SeenList;

/// A hold that is live: nobody else's commit may disturb what it observed.
#[derive(Debug, Drop)]
pub struct Hold {
    /// Whose commit it is.
    pub client: u32,
    /// The number of that commit.
    pub number: u64,
    /// What the commit's body observes where the commit stands.
    pub observations: SeenList,
}

/// A hold that bars a commit.
#[derive(Clone, Copy, Debug, PartialEq, Eq)]
pub struct Barred {
    /// Whose hold it is.
    pub client: u32,
    /// The hold's number in the journal.
    pub at: u64,
}
