//! The journal in a file: commits, written as payloads one behind another. It says of any bytes which commits they are
//! kept as, brings a file that a crash has left to rest, and keeps commits in it for a journal.
//!
//! Read `specs/Commits.antt` first, for what a file is kept as, then `specs/Keepers.antt`, for what a keeper promises.
#![tactic(auto)]

mod chain;
mod coded;
mod counts;
mod keeper;
mod recovering;
mod taker;

pub use keeper::CommitKeeper;
pub use recovering::{Recovered, hand_kept, read_kept, recover};
pub use taker::CommitTaker;
