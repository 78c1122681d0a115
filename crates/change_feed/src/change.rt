//! Changes of commits.

use plain_data::ExactClone;
use rdt_types::{Address, Delta};

/// What the commit of a number does at an address.
#[derive(Clone, Debug, Drop, PartialEq, Eq)]
pub struct Change {
    pub number: u64,
    pub address: Address,
    pub delta: Delta,
}

impl ExactClone for Change {
    ghost use Rattle.std.proofs.Common.{rules};

    ghost exact = { Prim.search rules };
}
