//! Tests of the crates between the data and the sessions: `journal_core`, `hold_core`, `reactive_registry`, `txn_eval`,
//! `rerun_driver`, `watch_reruns`, `par_rerun`, `docc_prepare` and `local_world`. They try what no clause says: that calls find what they need with ample
//! memory, and worked values. Nothing stands on this crate.
//!
//! What a script can say of these crates is a case of `script_cases`, and what a definition says is a line beside it.
#![tactic(auto)]

#[cfg(test)]
mod attempts;
#[cfg(test)]
mod bodies;
#[cfg(test)]
mod holds;
#[cfg(test)]
mod reruns;
#[cfg(test)]
mod runs;
#[cfg(test)]
mod subscriptions;
#[cfg(test)]
mod watches;
#[cfg(test)]
mod worlds;
