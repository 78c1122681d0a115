//! The data of the store: addresses, the values at them, the operations that write values, and deltas, which are what a
//! list of operations comes to. It stands on `plain_data` alone, and every crate that speaks of data stands on it.
//!
//! Read first `specs/Values.antt` (what an operation writes) and `specs/Deltas.antt` (what a delta does, and the two
//! laws that tie deltas to operations). Deltas of sets and hashes have one form, `specs/Keyed.antt`; those of lists have
//! theirs in `specs/Listed.antt`.
#![tactic(auto)]

mod address;
mod delta;
mod delta_map;
mod keyed_delta;
mod limits;
mod list_delta;
mod mark;
mod operation;
mod outcome;
mod printed;
mod settings;
mod shard;
mod value;

pub use address::{Address, Kind};
pub use delta::{
    Delta, apply, compose, compositions_apply_in_turn, compositions_associate, delta_of,
    deltas_write,
};
pub use delta_map::{DeltaMap, add_delta};
pub use keyed_delta::{HashDelta, KeyedDelta, SetDelta};
pub use limits::{
    LEAST_COMMITS, LEAST_SHARDS, LEAST_WINDOW, MOST_COMMITS, MOST_SHARDS, MOST_WINDOW,
    STANDARD_COMMITS, STANDARD_SHARDS, STANDARD_WINDOW,
};
pub use list_delta::ListDelta;
pub use mark::{Leaves, Mark};
pub use operation::WriteOp;
pub use outcome::{Item, ItemList, Outcome};
pub use printed::{DELETE, Spelling, spelling_of};
pub use settings::Settings;
pub use shard::shard_of;
pub use value::{TextList, Value, default_value};
