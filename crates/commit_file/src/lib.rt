//! The journal in a file on a disk: payloads one behind another, what is kept of them after a crash, and how one more is
//! kept. What a payload says is the affair of whoever reads it (`Chain`).
//!
//! A payload stands in a frame behind a gate of one byte. It is written behind the closed gate first, and the gate is opened
//! once that is on the disk. So whatever a crash leaves of a write, a frame is there as a whole or not at all.
//!
//! Read `specs/Files.antt` first, for what a file is, then `specs/Kept.antt`, for what is kept of the bytes that a crash
//! has left. `MemDisk` is a disk in memory, which gives each image that a crash may leave.
#![tactic(auto)]

mod chain;
mod gate;
mod keeper;
mod mem_disk;
mod moment;
mod reading;
mod recover_error;
mod recovering;
mod replace;
mod scanning;
mod settling;
mod through;
mod version;

pub use chain::Chain;
pub use keeper::{FileKeeper, KeepFault};
pub use mem_disk::MemDisk;
pub use moment::Torn;
pub use recover_error::RecoverError;
pub use recovering::{read_kept, recover};
pub use version::Version;
