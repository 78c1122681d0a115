//! Stale watches run anew by many workers. [`Parallel`] cuts a list of them into parts, runs each part in a thread of its own, and
//! answers what one worker does (`watch_reruns`). It stands on that crate and on `rayon`.
//!
//! Read `reruns_of` of `watch_reruns` first. `specs/Parts.antt` says what parts come to.
#![tactic(auto)]

mod meet;
mod parallel;
mod parts;

pub use meet::{Meet, NoMeet};
pub use parallel::Parallel;
