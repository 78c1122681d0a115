//! The statuses with which a run ends.

/// The input was read to its end, and its whole output was written.
pub const WHOLE: u8 = 0;

/// A read failed.
pub const READ_FAULT: u8 = 3;

/// A write or the flush at the end failed.
pub const WRITE_FAULT: u8 = 4;

/// There was no memory.
pub const NO_MEMORY: u8 = 5;

/// There is a line behind the last one that may be read.
pub const TOO_MANY_LINES: u8 = 9;
