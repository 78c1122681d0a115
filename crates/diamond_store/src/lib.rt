//! The shared store: the one journal, and shards that follow it, for any number of threads. Each client has a [`Pass`], which
//! knows a prefix of the journal; each call on a [`Store`] is one step on one locked object, and keeps the promises of every
//! backend. The journal lies behind a `history_lock`, with the book of its live holds; each shard, and the registry of
//! subscriptions, behind a lock of its own.
#![tactic(auto)]

mod answer;
mod appending;
mod bell;
mod book;
mod clients;
mod decision;
mod feeder;
mod gate;
mod hand;
mod history;
mod join_error;
mod opening;
mod pass;
mod replica;
mod served;
mod span;
mod store;
mod telling;
mod waiting;

pub use answer::StoreAppendError;
pub use book::Book;
pub use clients::Closed;
pub use gate::{Gate, Open};
pub use join_error::JoinError;
pub use opening::open;
pub use pass::Pass;
pub use served::Served;
pub use store::Store;
