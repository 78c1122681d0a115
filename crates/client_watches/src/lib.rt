//! A client's watches over any backend: bodies that only read, of which each report stands for one prefix of the journal. They
//! are brought up to date by what changed, made, and forgotten; each value that they rest on is read once, and its changes are
//! told from then on. It stands on `rerun_driver` and `client_cache` (what is kept), on `watch_reruns` (who makes reruns), on `docc_prepare` (what every backend
//! promises) and on `call_programs` (what a client does, as data); a client's session stands on it (`session_core`).
//!
//! Read first `specs/Watching` (what is kept) and `specs/Lines` (what a line does, as a program of calls). `specs/Explained` says
//! which replies a journal explains, and `specs/LineLaws` what every line keeps to.
#![tactic(auto)]

mod catching;
mod dropping;
mod error;
mod fetching;
mod laws;
mod lines;
mod means;
mod new_watch;
mod replies;
mod running;
mod watching;

pub use error::WatchError;
pub use laws::{
    beginnings_attend, lines_are_safe, lines_ask_few, lines_go_on, lines_let_go,
    lines_say_what_is_seen, others_leave_standing, passing_stays, sync_is_explained,
    unwatch_is_explained, watch_is_explained,
};
pub use means::Means;
pub use new_watch::NewWatch;
pub use watching::{AddressList, ReplyList, Watching};
