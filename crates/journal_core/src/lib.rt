//! The journal: the one list of commits, and the decision by which a transaction becomes the next of them or is refused.
//! It stands on `txn_lang`, whose commits it keeps, and on `abort_witness`, whose pairs it decides by; attempts and stores
//! stand on it.
//!
//! Read first `specs/Journals.antt` (what an append answers and leaves) and `specs/Pairs.antt` (the pairs of an observation
//! and a commit, and their order). `specs/Changes.antt` says what a tail has, and `specs/Keeping.antt` what a keeper keeps.
//! `specs/Holds.antt` says which commits are holds and whom they bar: an append is two calls, `clashes` and `append_clear`, so
//! that a store can ask that between them.
#![tactic(auto)]

mod appended;
mod copying;
mod deciding;
mod hold;
mod journal;
mod keep;
mod laws;
mod lent;
mod limits;
mod log;
mod naming;
mod ready;
mod segments;
mod slot;
mod tails;
mod walk;

pub use appended::Appended;
pub use copying::copies_of_address;
pub use hold::{Barred, Hold};
pub use journal::Journal;
pub use keep::{Keep, KeepFault, MemKeep};
pub use laws::{least_is_first, least_pair_is_least};
pub use lent::{LentChanges, LentTail};
pub use limits::{FIRST_UNTOLD_CLIENT, HOLD_LASTS, LONGEST_BODY};
pub use ready::{FrontList, PreparedFront, Ready};
pub use segments::Segments;
pub use slot::Slot;
pub use walk::between;
