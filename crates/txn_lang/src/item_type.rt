//! Types of what expressions give.

/// The type of an item. Every expression of a checked body has one.
#[derive(Clone, Copy, Debug, PartialEq, Eq)]
pub enum Type {
    Int,
    Bool,
    Text,
    Texts,
}
