//! The evaluator: it runs checked bodies on the values that it is given. Its one promise is that a run is `exec` of
//! `txn_lang`, whose rules it carries out over a buffer of deltas (`write_buffer`) where the definition replays operations.
//!
//! Read first `specs/Running.antt` of this crate (what a run comes to, on which values), and then `specs/Rules.antt` and
//! `specs/Execution.antt` of `txn_lang`, which say what a body does.
#![tactic(auto)]

mod charging;
mod environment;
mod expression;
mod going;
mod here;
mod items;
mod kept;
mod laws;
mod lent;
mod naming;
mod observed;
mod pause;
mod running;
mod seen_key;
mod statement;

pub use laws::pauses_stay;
pub use pause::Pause;
pub use running::{Step, go_on, run};
pub use txn_lang::{Run, Seen, SeenList, Snap, Snaps};
