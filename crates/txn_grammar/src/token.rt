//! Tokens, and where they stand.

use crate::symbol::Symbol;
use plain_data::Text;

/// A token of a body's text.
#[derive(Debug, Drop)]
pub enum Token {
    Symbol(Symbol),
    /// A word that isn't reserved.
    Name(Text),
    Number(i64),
    /// What stands between quotes, its escapes read.
    Text(Text),
    /// What begins no token, or one that is out of its bounds. No body has it.
    Malformed,
}

/// A token, and the column of its first byte. Columns count the bytes of the text from 1.
#[derive(Debug, Drop)]
pub struct Spot {
    pub column: u32,
    pub token: Token,
}

/// The token at the front of a text, and how many bytes spell it.
#[derive(Debug, Drop)]
pub struct Lexeme {
    pub token: Token,
    pub len: usize,
}
