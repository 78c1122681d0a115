//! The limits of a body's text.

/// The most levels that stand open at once in a body. `(`, `[`, `{`, `not` and a `-` before an operand each open one for
/// what stands inside them; a token that could only go on with one more is refused.
pub const DEEPEST: u8 = 32;

/// The most bytes of a word, and so of a name. A longer word is malformed.
pub const LONGEST_NAME: usize = 32;
