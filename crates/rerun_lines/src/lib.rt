//! The laws of a line's reruns. A client's line of watches runs the stale ones one after another, and reads each value that is
//! missing (`client_watches`). Where none is missing their runs are all made before any is reported, by as many workers as
//! there are (`watch_reruns`): the line then does what it does one by one. It stands on these two, and nothing stands on it.
//!
//! Read first `specs/Repeated.antt`: what reruns come to is what a driver gives one after another. Then read `specs/AtOnce.antt`.
#![tactic(auto)]

mod laws;

pub use laws::{needs_are_asked, reruns_are_repeated, reruns_at_once};
