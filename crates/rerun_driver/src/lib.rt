//! The watches of a client: bodies that are run anew once a change touches what their last run observed. A [`Driver`] keeps
//! them in the order of their making; it is told of feeds, names the watches that are stale, runs the body of the first on the
//! values of a cache, and takes the report. It stands on `txn_eval` and `client_cache`; a client's watches over a store stand on it
//! (`client_watches`).
//!
//! Read first `specs/Watches.antt` (what is kept of a watch, what a feed does to it, and what is run next) and then
//! `specs/Touched.antt` (the law that the stale watches are those that commits touched).
#![tactic(auto)]

mod driver;
mod laws;
mod numbers;
mod places;
mod placing;
mod rerun;
mod roll;
mod telling;
mod touching;
mod watch;

pub use driver::Driver;
pub use laws::stale_is_touched;
pub use rerun::{Begun, Rerun, run_from, run_on};
pub use watch::{StaleWatch, Watch};
