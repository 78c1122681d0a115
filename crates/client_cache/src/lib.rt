//! The values that a client holds, all as of one number of the journal: a [`Cache`] is filled with values at that number and
//! then advanced by feeds. It stands on `change_feed`; whatever reruns bodies for a client stands on it.
//!
//! Read first `specs/Cached.antt` (what a cache holds, and what a feed makes of it) and `specs/Laws.antt` (a cache that is
//! advanced by what is pending holds the state at its number).
#![tactic(auto)]

mod cache;
mod laws;

pub use cache::Cache;
pub use laws::{caches_follow, pending_applies_in_turn};
