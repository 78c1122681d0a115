//! What the journal answers to an append.

use abort_witness::Found;

/// The journal's decision. The tests stand in the order clash, full, disk fault; a number is what is left.
#[derive(Clone, Copy, Debug, PartialEq, Eq)]
pub enum Appended {
    /// The commit was added, and has this number.
    Number(u64),
    /// A commit past the prepared fronts clashes with an observation.
    Clash(Found),
    /// The journal has as many commits as it takes, which is this limit, or more.
    Full(u32),
    /// The keeper failed: its count of faults was the first number before, and is the second now.
    DiskFault(u64, u64),
}
