//! Who is subscribed to which addresses, and what is pending for whom. A [`Registry`] gives each subscriber, at each take,
//! what its addresses' changes since its last take come to; it follows a journal by its tails. It stands on `change_feed`,
//! and for its law on clients on `client_cache`.
//!
//! Read first `specs/Registered.antt` (what a registry keeps of a subscriber) and `specs/Standing.antt` (what that means: it
//! stands for the journal's changes).
#![tactic(auto)]

mod laws;
mod maps;
mod places;
mod registry;
mod subscriber;
mod telling;

pub use laws::{
    all_stand, clients_follow, entries_stand, follows_stand, one_stands, pending_is_since,
    subscribes_stand, takes_stand, unsubscribes_stand,
};
pub use registry::Registry;
