//! How large a store is.

ghost use Rattle.std.specs.Prelude.{◌≡◌, ◌≤◌};
ghost use Rattle.rdt_types.specs.declared.limits.TheConstants.{LEAST_SHARDS, MOST_SHARDS, LEAST_WINDOW, MOST_WINDOW, LEAST_COMMITS, MOST_COMMITS};

use crate::limits::{
    LEAST_COMMITS, LEAST_SHARDS, LEAST_WINDOW, MOST_COMMITS, MOST_SHARDS, MOST_WINDOW,
    STANDARD_COMMITS, STANDARD_SHARDS, STANDARD_WINDOW,
};

/// The settings of a store, within their limits.
#[derive(Clone, Copy, Debug, PartialEq, Eq)]
pub struct Settings {
    /// How many shards hold the data.
    pub shards: u8,
    /// How many commits back a shard can still be read.
    pub window: u16,
    /// How many commits the journal takes.
    pub limit: u32,
    pub ghost shards_in_range: { (LEAST_SHARDS ≤ shards) × (shards ≤ MOST_SHARDS) },
    pub ghost window_in_range: { (LEAST_WINDOW ≤ window) × (window ≤ MOST_WINDOW) },
    pub ghost limit_in_range: { (LEAST_COMMITS ≤ limit) × (limit ≤ MOST_COMMITS) },
}

impl Settings {
    /// The settings of a store that is told none: the longest window and the longest journal.
    pub fn standard() -> Settings
        ensures shards { result.shards ≡ STANDARD_SHARDS }
        ensures window { result.window ≡ STANDARD_WINDOW }
        ensures limit { result.limit ≡ STANDARD_COMMITS }
    {
        Settings {
            shards: STANDARD_SHARDS,
            window: STANDARD_WINDOW,
            limit: STANDARD_COMMITS,
        }
    }
}
