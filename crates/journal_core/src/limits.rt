//! How large things may be. Each number is pinned by a line of `specs/Limits.antt`.

/// The bytes of a body, at most. It binds what is kept: a longer body comes from no line.
pub const LONGEST_BODY: usize = 4096;

/// The first client number that no kept list tells of.
pub const FIRST_UNTOLD_CLIENT: u32 = 4_000_000_000;

/// For how many commits a hold is live, its own among them. So at most as many are live at once.
pub const HOLD_LASTS: u64 = 64;
