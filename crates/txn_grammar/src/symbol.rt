//! The tokens that are always spelled the same: reserved words and marks.

/// A reserved word or a mark. Each is one token, by its spelling alone.
#[derive(Clone, Copy, Debug, PartialEq, Eq)]
pub enum Symbol {
    Let,
    Emit,
    Fail,
    If,
    Else,
    For,
    In,
    And,
    Or,
    Not,
    True,
    False,
    Len,
    Str,
    Bool,
    Counter,
    Text,
    Set,
    Hash,
    List,
    Peak,
    /// `==`
    Equal,
    /// `!=`
    Unequal,
    /// `<=`
    AtMost,
    /// `>=`
    AtLeast,
    /// `<`
    Less,
    /// `>`
    Greater,
    /// `=`
    Assign,
    Plus,
    Minus,
    Times,
    /// `(`
    OpenParen,
    /// `)`
    CloseParen,
    /// `[`
    OpenBracket,
    /// `]`
    CloseBracket,
    /// `{`
    OpenBrace,
    /// `}`
    CloseBrace,
    Comma,
    Semicolon,
    /// `.`
    Dot,
}

/// The reserved words, which are no names, the commonest first.
pub const WORDS: [(&[u8], Symbol); 21] = [
    (b"counter", Symbol::Counter),
    (b"set", Symbol::Set),
    (b"emit", Symbol::Emit),
    (b"if", Symbol::If),
    (b"hash", Symbol::Hash),
    (b"list", Symbol::List),
    (b"text", Symbol::Text),
    (b"str", Symbol::Str),
    (b"for", Symbol::For),
    (b"in", Symbol::In),
    (b"let", Symbol::Let),
    (b"else", Symbol::Else),
    (b"and", Symbol::And),
    (b"true", Symbol::True),
    (b"false", Symbol::False),
    (b"fail", Symbol::Fail),
    (b"not", Symbol::Not),
    (b"or", Symbol::Or),
    (b"len", Symbol::Len),
    (b"bool", Symbol::Bool),
    (b"peak", Symbol::Peak),
];

/// The marks, of two bytes and of one, the commonest first.
pub const MARKS: [(&[u8], Symbol); 19] = [
    (b"(", Symbol::OpenParen),
    (b")", Symbol::CloseParen),
    (b".", Symbol::Dot),
    (b";", Symbol::Semicolon),
    (b",", Symbol::Comma),
    (b"{", Symbol::OpenBrace),
    (b"}", Symbol::CloseBrace),
    (b"=", Symbol::Assign),
    (b"+", Symbol::Plus),
    (b"-", Symbol::Minus),
    (b"<", Symbol::Less),
    (b">", Symbol::Greater),
    (b"==", Symbol::Equal),
    (b"!=", Symbol::Unequal),
    (b"<=", Symbol::AtMost),
    (b">=", Symbol::AtLeast),
    (b"*", Symbol::Times),
    (b"[", Symbol::OpenBracket),
    (b"]", Symbol::CloseBracket),
];
