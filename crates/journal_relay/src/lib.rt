//! What a store hands on of its journal while that is in use: a [`Relay`] has the changes of the journal's first commits, so
//! that whoever follows the journal takes them there. It stands on `journal_core`, whose tails it takes and gives, and on
//! `change_feed`, whose segments its tails share; the shared store stands on it.
//!
//! Read first `specs/Relays.antt`, which says when a relay stands for a journal.
#![tactic(auto)]

mod laws;
mod parts;
mod relay;

pub use laws::{relays_follow, relays_stay};
pub use parts::{part_at, part_in_shard};
pub use relay::Relay;
