//! What the definition of the journal's file says of any bytes, computed as it stands there: an oracle for tests, which stands under
//! no program. It shares no code with the recovery of `commit_file`, but its definitions (`specs/Files`, `specs/Kept` there).
//!
//! Recovery reads a file once, takes each payload as it comes, and changes the disk. Here the whole file is bytes, its payloads are all
//! listed first, then each is held against the list of those before it, and what is left on a disk is written anew, byte by byte.
//!
//! Read `specs/Verdicts.antt` first, for what is answered.
#![tactic(auto)]

mod checking;
mod contents;
mod follows;
mod frames;
mod verdict;

pub use follows::Follows;
pub use verdict::{Kept, Verdict, judge};
