//! How many calls a line makes.

/// The events of an attempt, and the reads of a look, at most: a run is charged for each value that it needs, so it needs no
/// more than 10,000; an attempt prepares at most 16 shards, and appends once.
pub const MOST_EVENTS: u64 = 10_020;

/// The calls of a line, at most: it makes no more than 256 attempts, each with a refresh.
pub const MOST_CALLS: u64 = 2_565_376;
