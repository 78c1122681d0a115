//! Attempts at a commit, under optimistic concurrency control: a body reads values at fronts of its shards, its shards are
//! prepared one by one, and the journal decides. It stands on the evaluator (`txn_eval`), on the journal's pairs
//! (`journal_core`) and on what shards answer (`version_shard`); what drives an attempt stands on it.
//!
//! Read first `specs/Attempts.antt` (what an attempt is, its next event, and when it fits a journal), and then
//! `specs/Serial.antt`, the page on which serializability stands, without any code.
#![tactic(auto)]

mod attempt;
mod backend;
mod laws;
mod limits;
mod observed;
mod stepping;
mod store_laws;
mod waiter;

pub use attempt::{Attempt, Next};
pub use backend::{AppendError, Backend, PrepareError, ReadAtError, StoreError};
pub use laws::{
    appending_stays_legal, attempts_fit_longer_journals, attempts_run_as_they_ran,
    events_stay_sound, every_world_is_sound, first_worlds_are_sound, fronts_spare_no_pair,
    legal_journals_are_orderly, moves_stay_sound, reads_are_observed,
};
pub use limits::CLIENTS;
pub use store_laws::{
    first_stores_are_sound, others_count_as_within, shards_follow, steps_are_answered,
    steps_leave_others, steps_may_be_done, witness_is_named,
};
pub use waiter::Waiter;
