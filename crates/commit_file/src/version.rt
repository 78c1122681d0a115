//! Versions of the file.

/// A version of the journal's file. A file is made in version 2. One of version 1 is read, gets a mark behind its last
/// frame, and goes on in version 2 behind that.
#[derive(Clone, Copy, Debug, PartialEq, Eq)]
pub enum Version {
    One,
    Two,
}
