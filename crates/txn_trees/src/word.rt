//! The operators and operation words of the language.

/// An operator of a chain.
#[derive(Clone, Copy, Debug, PartialEq, Eq)]
pub enum Operator {
    Or,
    And,
    Plus,
    Minus,
    Times,
}

/// A comparison of two values.
#[derive(Clone, Copy, Debug, PartialEq, Eq)]
pub enum Relation {
    Equal,
    Unequal,
    Less,
    AtMost,
    Greater,
    AtLeast,
}

/// What a write does. Each kind has some of these.
#[derive(Clone, Copy, Debug, PartialEq, Eq)]
pub enum WriteWord {
    Put,
    Add,
    Remove,
    Clear,
    Push,
    Raise,
}

/// What a read asks. Each kind has some of these.
#[derive(Clone, Copy, Debug, PartialEq, Eq)]
pub enum ReadWord {
    Get,
    Has,
    All,
    Fields,
    At,
    Over,
}
