//! How long answers may be. The number is pinned by a line of `specs/Answers.antt`.

/// The bytes of an answer, at most: as many as four bytes tell.
pub const LONGEST_ANSWER: usize = 4_294_967_295;
