//! How what came differs from what was wanted.

use std::fmt;

/// How what came differs from what was wanted.
#[derive(Clone, Copy)]
pub enum Difference {
    /// What recovery made of the file.
    Found(Found),
    /// A second recovery finds something else, or changes the file.
    Second,
    /// Who only reads finds something else, or changes the file.
    Reading,
    /// The file isn't as it was.
    Changed,
    /// The file has another byte at this place, or is longer or shorter from there on.
    Byte(usize),
    /// The file has so many bytes.
    Long(usize),
    /// The server ended with this status.
    Status(u8),
    /// The server wrote another line.
    Line,
    /// The session was answered otherwise.
    Replies,
    /// The disk was called so often.
    Calls(u64),
    /// A crash behind so many calls.
    Crash(u64),
    /// A fault of this call.
    Fault(u64),
    /// A fault of this call and of all behind it.
    Gone(u64),
}

/// What recovery makes of a file.
#[derive(Clone, Copy, Debug, PartialEq, Eq)]
pub enum Found {
    /// The commits that are wanted, which end there.
    Journal(u64),
    /// Other commits.
    Others,
    /// From this byte on it is no journal.
    NotJournal(u64),
    /// The disk failed.
    DiskFault,
    /// There was no memory.
    NoMemory,
}

impl fmt::Display for Difference {
    fn fmt<W: fmt::Write>(&self, f: &mut fmt::Formatter<W>) -> fmt::Result {
        match self {
            Difference::Found(found) => write!(f, "recovery: {found:?}"),
            Difference::Second => write!(f, "a second recovery"),
            Difference::Reading => write!(f, "who only reads"),
            Difference::Changed => write!(f, "the file was changed"),
            Difference::Byte(place) => write!(f, "another byte at {place}"),
            Difference::Long(length) => write!(f, "{length} bytes"),
            Difference::Status(status) => write!(f, "status {status}"),
            Difference::Line => write!(f, "another line at the end"),
            Difference::Replies => write!(f, "other replies"),
            Difference::Calls(calls) => write!(f, "{calls} calls of the disk"),
            Difference::Crash(calls) => write!(f, "a crash after {calls} calls"),
            Difference::Fault(call) => write!(f, "a fault of call {call}"),
            Difference::Gone(call) => write!(f, "faults from call {call} on"),
        }
    }
}
