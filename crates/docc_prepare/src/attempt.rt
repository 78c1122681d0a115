//! A transaction on its way to a commit.

ghost use Rattle.std.specs.Prelude.{◌≤◌};
ghost use Rattle.rdt_types.specs.declared.limits.TheConstants.{LEAST_SHARDS, MOST_SHARDS};

use journal_core::FrontList;
use rdt_types::Address;
use txn_lang::{Checked, Run, Snaps};

/// A body with what was read and prepared for it so far.
#[derive(Debug, Drop)]
pub struct Attempt {
    pub body: Checked,
    /// The number of shards of the store that answers.
    pub shards: u8,
    /// The value of each address that was read, with the front at which it was.
    pub snaps: Snaps,
    /// The fronts at which shards were prepared.
    pub fronts: FrontList,
    pub ghost shards_in_range: { (LEAST_SHARDS ≤ shards) × (shards ≤ MOST_SHARDS) },
}

/// The next event of an attempt.
#[derive(Debug, Drop)]
pub enum Next {
    /// The run needs the value at this address.
    Read(Address),
    /// The run is done, and this is the least shard that holds an observed address and has no front.
    Prepare(u8, Run),
    /// The run is done, and each shard that holds an observed address has a front.
    Append(Run),
}
