//! The language of transactions, and what it means to run a body: the definitions that every promise of the store cites.
//!
//! Read first `specs/States.antt` (the values that commits leave), `specs/Rules.antt` and `specs/Execution.antt` (what a
//! body does on them) and `specs/Journals.antt` (what a legal journal is). The language's trees come from `txn_trees`, its tokens and grammar
//! from `txn_grammar`; what runs, validates or keeps commits stands on this crate.
#![tactic(auto)]

mod checked;
mod checking;
mod commit;
mod environment;
mod item_type;
mod judging;
mod laws;
mod limits;
mod progress;
mod run;
mod snaps;
mod writing;

pub use checked::Checked;
pub use checking::{CheckError, check};
pub use commit::{Commit, CommitList};
pub use environment::Environment;
pub use item_type::Type;
pub use laws::{
    bodies_are_judged, deltas_leave_what_operations_leave, legal_commits_follow, needs_are_missing,
    needs_stay, observations_are_few, observed_is_there, reads_are_few, runs_are_bounded,
    runs_are_determined, runs_ask_short, runs_stay_done, trees_are_typed_bodies, types_are_found,
    whole_runs_are_done,
};
pub use limits::{LOAD_LIMIT, TEXT_LIMIT, TEXTS_LIMIT, TICK_LIMIT};
pub use progress::{Progress, Stop};
pub use run::{Run, Seen, SeenList};
pub use snaps::{Snap, Snaps};
