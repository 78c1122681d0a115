//! How many clients a store of one thread has.

/// Clients of a store of one thread have the numbers below this one.
pub const CLIENTS: u32 = 64;
