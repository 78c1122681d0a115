//! The limits of a run.

/// How many ticks a run may charge. It ends at the charge that would go past them.
pub const TICK_LIMIT: u64 = 10_000;

/// How many bytes a text may have that an expression makes or a read answers, a key included.
pub const TEXT_LIMIT: usize = 1_024;

/// How large texts may be together that an expression makes or a read answers: each counts its bytes and one more.
pub const TEXTS_LIMIT: usize = 65_536;

/// How much a run may emit and write. It ends at the statement that would go past it.
pub const LOAD_LIMIT: u64 = 16_384;
