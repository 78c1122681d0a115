//! Stale watches run anew. A [`Rerunner`] runs the bodies of stale watches on the values of one cache, and answers what their
//! runs come to where they are made one after another: the value that the first of them needs whose run isn't done, or each
//! watch's name and run, in the order of the watches. [`One`] makes them one after another. It stands on `rerun_driver`, whose
//! drivers list their stale watches; a client's watches over a store stand on it (`client_watches`), and so does `par_rerun`.
//!
//! Read `specs/Reruns.antt`: what reruns come to. The laws by which a line uses them are those of `rerun_lines`.
#![tactic(auto)]

mod rerunner;
mod reruns;

pub use rerun_driver::StaleWatch;
pub use rerunner::{One, Rerunner};
pub use reruns::{Reruns, RunList, WatchRun, run_watch};
