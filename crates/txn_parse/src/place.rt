//! Where an expression stands.

/// The places of an expression inside a level.
#[derive(Clone, Copy)]
pub enum Place {
    /// In parentheses or brackets: any expression.
    Whole,
    /// Behind `not`.
    Negation,
    /// Behind `-`.
    Unary,
}
