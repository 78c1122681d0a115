//! Why bytes are not read as a commit.

/// Why bytes are not read as a commit.
#[derive(Clone, Copy, Debug, PartialEq, Eq)]
pub enum DecodeError {
    /// They are no payload: the place of the first field that can't be read in its form, or of the first byte behind
    /// the last field.
    BadRecord(u32),
    NoMemory,
}
