//! Clients of a store, for the tests of what runs in threads: how they come to it, with a session whose next line may always
//! follow, and what they are answered as text. Most of the tests are in `thread_tests`.
//!
//! Its clauses are what these tests need to call the store at all; what a line is answered they say nothing of.
#![tactic(auto)]

mod meeting;
mod talker;

pub use meeting::{Founder, is_printed, is_told, turn_text};
pub use talker::{Newcomer, Talker, TestPass, TestStore, first_session, say};
