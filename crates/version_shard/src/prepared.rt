//! What a shard answers when it validates.

use abort_witness::Witness;
use std::alloc::AllocError;

/// No commit past the bases and up to this front clashes with what a transaction observed in this shard.
#[derive(Clone, Copy, Debug, PartialEq, Eq)]
pub struct Prepared {
    pub shard: u8,
    pub front: u64,
}

/// Why a shard doesn't prepare a transaction. They are tested in the order late, clash.
#[derive(Debug, Drop)]
pub enum Refusal {
    /// The least base, which is below the horizon, and the horizon.
    Late(u64, u64),
    /// A commit up to the front clashes with an observation.
    Clash(Witness),
    /// There was no memory for the witness of a clash.
    NoMemory,
}

impl From<AllocError> for Refusal {
    ghost use Rattle.std.specs.Prelude.{◌≡◌};
    ghost use Rattle.version_shard.specs.declared.prepared.Refusal.TheVariants.{NoMemory};

    ghost from_gives = { λ _ refusal. refusal ≡ NoMemory };

    fn from(_error: AllocError) -> Refusal {
        Refusal::NoMemory
    }
}
