//! The live holds of a journal, in a book that is kept beside it: whom they bar, and what a further commit leaves of them.
//! It stands on `journal_core`, whose `specs/Holds.antt` says what a hold is. A book has no journal: the stores keep one beside
//! theirs, and `enter` adds to both.
//!
//! Read first `specs/Books.antt`: what callers see of a book, what a commit makes of it, and how many observations a look at
//! it may have to test.
#![tactic(auto)]

mod book;
mod ending;
mod indexed;
mod laws;
mod marks;
mod meeting;
mod placing;
mod telling;
mod watched;

pub use book::{HoldBook, enter};
pub use indexed::IndexedSeen;
pub use laws::{bars_are_least, covered_is_clear, holds_end_only_so, live_holds_are_listed};
pub use telling::{copy_seen, seen_to_hold};
