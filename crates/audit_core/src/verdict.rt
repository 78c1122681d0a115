//! What an audit says.

/// What doesn't hold of a commit, in the order in which it is looked at.
#[derive(Clone, Copy, Debug, PartialEq, Eq)]
pub enum Flaw {
    /// It hasn't the next number.
    Number,
    /// It hasn't the next seq of its client.
    Seq,
    /// Its body is none.
    Body,
    /// Its body ends otherwise on the state that the commits before it leave.
    Outcome,
    /// Its body writes otherwise.
    Deltas,
}

/// What an audit says of a list of commits.
#[derive(Clone, Copy, Debug, PartialEq, Eq)]
pub enum Verdict {
    /// They are a legal journal, of so many commits.
    Legal(u64),
    /// The place, from 1, of the first commit that isn't what it should be, and the first of its flaws.
    Broken(u64, Flaw),
}
