//! What a commit saw, and what changed it.

use conflict_table::Obs;
use plain_data::{ExactClone, Sequence};
use rdt_types::{Address, WriteOp};

/// An observation of the value at an address, as it was after so many commits.
#[derive(Clone, Debug, Drop, PartialEq, Eq)]
pub struct Based {
    pub address: Address,
    pub obs: Obs,
    pub base: u64,
}

impl ExactClone for Based {
    ghost use Rattle.std.proofs.Common.{rules};

    ghost exact = { Prim.search rules };
}

/// Observations in the order in which they were made.
pub type BasedList = Sequence<Based>;

/// Why a commit is refused: an observation with its base, a write of an earlier commit that clashes with it, and that
/// commit's number.
#[derive(Clone, Debug, Drop, PartialEq, Eq)]
pub struct Witness {
    pub address: Address,
    pub obs: Obs,
    pub base: u64,
    pub part: WriteOp,
    pub number: u64,
}

impl ExactClone for Witness {
    ghost use Rattle.std.proofs.Common.{rules};

    ghost exact = { Prim.search rules };
}

/// Witnesses, one after another.
pub type WitnessList = Sequence<Witness>;

/// Where a clash was found: the place of the observation among those that were looked through, counted from 0, and the
/// number of the commit.
#[derive(Clone, Copy, Debug, PartialEq, Eq)]
pub struct Found {
    pub place: u32,
    pub number: u64,
}

impl ExactClone for Found {
    ghost use Rattle.std.proofs.Common.{rules};

    ghost exact = { Prim.search rules };
}

/// Clashes, one after another.
pub type FoundList = Sequence<Found>;
