//! What a server says of itself while it serves: how many sessions there are, and how many commits. Its links and its disk are
//! wrapped, and what passes through them stays as it is.
//!
//! Read `specs/Replies.antt` first: how the number of a commit is found in the bytes of replies, in whatever pieces they come; and
//! then `specs/Frames.antt`: how many commits are found in the bytes of a file.
#![tactic(auto)]

mod counts;
mod disk;
mod frames;
mod link;
mod listening;
mod replies;
mod telling;

pub use counts::{Counts, Seen};
pub use disk::CountedDisk;
pub use frames::{FilePlace, FileReading, laws_of_files};
pub use link::CountedLink;
pub use listening::CountedListening;
pub use replies::{Place, Reading};
pub use telling::tell;
