//! The world of one thread: the journal, shards that follow it, what each client has seen, and who is told of what. Each
//! client's [`View`] of a [`World`] is a backend, whose calls go by the step of the store of one thread. It stands on
//! `docc_prepare`, which has the store and the trait, and on the parts: `journal_core`, `version_shard` and
//! `reactive_registry`. What runs sessions in one thread stands on it.
//!
//! Read first `specs/Stored.antt` (what callers see of a world, and the store that it is), then `Store` and `step` in
//! `specs/Stores.antt` of `docc_prepare`. `specs/Standing.antt` says what the parts of a world stand for.
#![tactic(auto)]

mod deciding;
mod following;
mod making;
mod telling;
mod view;
mod world;

pub use view::View;
pub use world::World;
