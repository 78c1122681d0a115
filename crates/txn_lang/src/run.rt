//! What the run of a body comes to.

use conflict_table::Obs;
use plain_data::{ExactClone, Sequence};
use rdt_types::{Address, DeltaMap, Outcome};

/// An observation and the address of the value that was observed.
#[derive(Clone, Debug, Drop, PartialEq, Eq)]
pub struct Seen {
    pub address: Address,
    pub obs: Obs,
}

impl ExactClone for Seen {
    ghost use Rattle.std.proofs.Common.{rules};

    ghost exact = { Prim.search rules };
}

/// Observations in the order of their first making, each once.
pub type SeenList = Sequence<Seen>;

/// A run that has ended.
#[derive(Debug, Drop)]
pub struct Run {
    pub outcome: Outcome,
    /// What the body writes. There is nothing where the outcome isn't `ok`.
    pub deltas: DeltaMap,
    /// What its reads rest on.
    pub observations: SeenList,
}
