//! The shards of a store. A [`Shard`] keeps the values of its addresses at its front, the number of commits that it has
//! followed, and the versions that commits made of them within a window, so that it is read at earlier numbers too and says
//! whether a commit clashes with what a transaction observed. It stands on `journal_core`, whose tails it follows.
//!
//! Read first `specs/Standing.antt` (what a shard stands for: a journal's commits up to its front) and
//! `specs/Validating.antt` (what it answers). `specs/Shards.antt` and `specs/Versions.antt` say what it keeps.
#![tactic(auto)]

mod at_error;
mod chain;
mod kept;
mod laws;
mod prepared;
mod shard;
mod validating;
mod version;
mod versions;

pub use at_error::AtError;
pub use laws::{empty_holds_nothing, legal_journals_are_readable, tails_are_of_their_kinds};
pub use prepared::{Prepared, Refusal};
pub use shard::Shard;
