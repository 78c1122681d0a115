//! Sessions of many clients in threads, over one shared store. A session (`session_core`) of one client is served over a link
//! (`dio_core`): its lines are read, done over the client's backend and answered, one after another, and a line that is to wait
//! waits. The tests run sessions over passes on a store (`diamond_store`) in threads, and hold what was answered against a run in
//! one thread.
//!
//! Read `specs/Talking.antt` first, which says what a talk over a link is, and then `KeepsPromises` of `specs/Promises.antt`,
//! which says what a session promises at each status.
#![tactic(auto)]

mod answering;
mod begun;
mod ended;
mod link;
mod ongoing;
mod replies;
mod serving;
mod serving_all;
mod shared;
mod status;
mod ways;

pub use serving::{serve_by, serve_session};
pub use serving_all::{Serving, Tally, serve_all, serve_all_by, serve_links};
pub use status::{NO_CLIENT, STORE_FAULT};
pub use ways::{Serves, SessionLines};
