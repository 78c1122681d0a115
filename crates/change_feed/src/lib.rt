//! The changes of commits, in two forms: a [`Tail`] lists those between two numbers of a journal, and a [`Feed`] keeps at
//! each address what they come to there. A tail's changes stand in a [`ChangeList`], in segments that are shared. The crate
//! stands on `rdt_types`; what follows a journal stands on it: shards take tails, and clients that watch take feeds.
//!
//! Read first `specs/Pending.antt` (what is pending at an address after changes) and `specs/Feeds.antt` (what a feed does,
//! and its laws). `specs/Segments.antt` says which list the pieces of a list make, `specs/Tails.antt` what a tail keeps, and
//! `specs/Changes.antt` which changes of a list are past a number or at an address.
#![tactic(auto)]

mod change;
mod change_list;
mod changes;
mod feed;
mod laws;
mod lending;
mod segment;
mod tail;

pub use change::Change;
pub use change_list::ChangeList;
pub use changes::Changes;
pub use feed::Feed;
pub use laws::{feeds_join, feeds_keep_pending, pending_joins};
pub use segment::Segment;
pub use tail::Tail;
