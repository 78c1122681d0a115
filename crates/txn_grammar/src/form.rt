//! What a token begins.

/// An expression of one token, which opens no level.
#[derive(Clone, Copy, Debug, PartialEq, Eq)]
pub enum Leaf {
    Number,
    Text,
    Truth,
    Name,
}

/// An expression that opens a level.
#[derive(Clone, Copy, Debug, PartialEq, Eq)]
pub enum Opener {
    /// `-`
    Negative,
    /// `(`
    Group,
    Len,
    Str,
    /// `[`
    Texts,
    /// The word of a kind.
    Read,
}

/// A statement that opens no level itself.
#[derive(Clone, Copy, Debug, PartialEq, Eq)]
pub enum Simple {
    Let,
    Emit,
    Fail,
}

/// A statement that opens a level.
#[derive(Clone, Copy, Debug, PartialEq, Eq)]
pub enum Nesting {
    If,
    For,
    /// The word of a kind.
    Write,
}
