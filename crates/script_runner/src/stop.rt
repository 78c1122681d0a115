//! Why a run of a script stops before its input ends.

use plain_data::OrNoMemory;

/// The most lines of one run. All lines count, blank ones too.
pub const MOST_LINES: u32 = 1_000_000;

/// Why a run stops, memory aside.
#[derive(Clone, Copy, Debug, PartialEq, Eq)]
pub enum Cause {
    ReadFault,
    WriteFault,
    /// There is a line behind the last one of [`MOST_LINES`].
    TooManyLines,
}

/// Why a run stops.
pub type Stop = OrNoMemory<Cause>;
