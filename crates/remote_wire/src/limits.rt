//! How long requests may be. The number is pinned by a line of `specs/Whole.antt`.

/// The bytes of a request, at most.
pub const LONGEST_REQUEST: usize = 33_554_432;
