//! A link to a store that is far away, as what has a client's requests answered: each request goes out as a frame, and one
//! frame comes back.
//!
//! Read first `specs/Exchanging.antt` (what a link does at a request), then `specs/Linking.antt` (what a client over a link
//! stands for, and the law that whatever is an answer keeps the clause of every call), and then the `LinkCaller`.
#![tactic(auto)]

mod exchange;
mod laws;
mod link_caller;
mod standing;

pub use laws::{links_answer, talks_go_on};
pub use link_caller::LinkCaller;
