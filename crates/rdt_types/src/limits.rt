//! How large a store may be. Each number is pinned by a line of `specs/Limits.antt`.

/// How many shards hold the data of a store, at least.
pub const LEAST_SHARDS: u8 = 1;

/// How many shards at most.
pub const MOST_SHARDS: u8 = 16;

/// How many shards where a store is told none.
pub const STANDARD_SHARDS: u8 = 4;

/// How many commits back a shard can still be read, at least.
pub const LEAST_WINDOW: u16 = 1;

/// How many commits back at most.
pub const MOST_WINDOW: u16 = 4096;

/// How many commits back where a store is told none.
pub const STANDARD_WINDOW: u16 = 4096;

/// How many commits a journal takes, at least.
pub const LEAST_COMMITS: u32 = 1;

/// How many commits at most.
pub const MOST_COMMITS: u32 = 100_000;

/// How many commits where a store is told none.
pub const STANDARD_COMMITS: u32 = 100_000;
