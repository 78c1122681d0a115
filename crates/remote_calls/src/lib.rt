//! What the requests of a client far from its store stand for, and what has them answered.
//!
//! Read `specs/Spelled.antt` (which request spells a call, and what its answer says) and `specs/Calling.antt` (what a caller
//! owes), and then the trait `Caller`.
#![tactic(auto)]

mod caller;

pub use caller::Caller;
