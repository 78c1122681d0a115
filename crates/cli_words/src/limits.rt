//! How many sessions one command serves, after how many commits a state may be asked for, and of which loads there are. The limits
//! of a store's settings are those of `rdt_types`.

/// How many sessions are served, at least.
pub const LEAST_SESSIONS: u32 = 1;

/// How many sessions at most.
pub const MOST_SESSIONS: u32 = 1000;

/// After how many commits a state may be asked for, at most.
pub const MOST_AT: u64 = 18_446_744_073_709_551_615;

/// The number that a load is made from, at most.
pub const MOST_SEED: u32 = 65_535;

/// How many rounds a load has, at least.
pub const LEAST_COUNT: u32 = 1;

/// How many rounds at most.
pub const MOST_COUNT: u32 = 40_000;

/// How many sessions where no number is given.
pub const STANDARD_SESSIONS: u32 = 1;
