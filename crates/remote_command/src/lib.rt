//! A session here, over a store that is served elsewhere: its lines are read from a source and answered into a sink, and the calls
//! that they make go as requests over a link.
//!
//! Read `specs/Running.antt` first: what such a session promises, by the status that it ends with.
#![tactic(auto)]

mod remote;
mod session;

pub use remote::{BROKEN_LINK, LINK_FAULT, run_remote};
pub use session::run_over;
