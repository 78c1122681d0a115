//! Frames of a stream of bytes: each is the length of its bytes in four bytes, the first of them the highest, and then its
//! bytes. What the bytes of a frame say is the affair of whoever reads it.
//!
//! Read `specs/Frames.antt`: what a frame is, how a stream is cut, and what one call takes of it.
#![tactic(auto)]

mod laws;
mod reading;
mod writing;

pub use laws::{broken_is_no_frame, frames_are_cut};
pub use reading::{Frame, FrameFault, read_frame};
pub use writing::write_frame;
