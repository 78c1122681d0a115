//! Witnesses of aborts: what a commit saw, and which earlier commit changed it. It stands on `conflict_table`, whose
//! observations it holds beside their addresses, and on `change_feed`, whose changes it looks through.
//!
//! Read first [`Based`] (what was seen, and at which number) and `specs/Pairs` (when a change clashes with it, and which
//! clash is the least); `specs/Naming` says what a [`Witness`] names, and `specs/Kinds` that its parts are of one kind.
#![tactic(auto)]

mod finding;
mod laws;
mod naming;
mod witness;

pub use finding::{first_clash, first_clash_in, least, lesser};
pub use laws::{least_is_least, witnesses_are_printable};
pub use naming::{name, name_delta};
pub use witness::{Based, BasedList, Found, FoundList, Witness, WitnessList};
