//! A service beside the backend that it calls, as what has the requests of a client answered: the store is in the same process, and
//! nothing is far away.
//!
//! Read `specs/Directing.antt` (what it stands for, and by what its calls go) and `specs/Laws.antt` (what may be asked has a meaning,
//! and sessions go through), and then `Direct`.
#![tactic(auto)]

mod direct;
mod laws;
mod telling;

pub use direct::Direct;
pub use laws::{sessions_go_through, what_may_be_asked_is_meant};
