//! The words of the language, as they are printed.

ghost use Rattle.std.specs.Prelude.{◌≡◌};
ghost use Rattle.txn_grammar.specs.Spellings as grammar;
ghost use Rattle.txn_print.specs.Canonical as spec;

use rdt_types::Kind;
use txn_grammar::Symbol;
use txn_trees::{Operator, ReadWord, Relation, WriteWord};

/// The bytes of a reserved word or a mark.
#[tactic(auto, unfolding(txn_grammar::specs::Spellings::spelling, txn_grammar::specs::Spellings::same_symbol))]
pub(crate) fn spelling(symbol: Symbol) -> &'static [u8]
    ensures { result.now ≡ grammar.spelling symbol }
{
    match symbol {
        Symbol::Let => b"let",
        Symbol::Emit => b"emit",
        Symbol::Fail => b"fail",
        Symbol::If => b"if",
        Symbol::Else => b"else",
        Symbol::For => b"for",
        Symbol::In => b"in",
        Symbol::And => b"and",
        Symbol::Or => b"or",
        Symbol::Not => b"not",
        Symbol::True => b"true",
        Symbol::False => b"false",
        Symbol::Len => b"len",
        Symbol::Str => b"str",
        Symbol::Bool => b"bool",
        Symbol::Counter => b"counter",
        Symbol::Text => b"text",
        Symbol::Set => b"set",
        Symbol::Hash => b"hash",
        Symbol::List => b"list",
        Symbol::Peak => b"peak",
        Symbol::Equal => b"==",
        Symbol::Unequal => b"!=",
        Symbol::AtMost => b"<=",
        Symbol::AtLeast => b">=",
        Symbol::Less => b"<",
        Symbol::Greater => b">",
        Symbol::Assign => b"=",
        Symbol::Plus => b"+",
        Symbol::Minus => b"-",
        Symbol::Times => b"*",
        Symbol::OpenParen => b"(",
        Symbol::CloseParen => b")",
        Symbol::OpenBracket => b"[",
        Symbol::CloseBracket => b"]",
        Symbol::OpenBrace => b"{",
        Symbol::CloseBrace => b"}",
        Symbol::Comma => b",",
        Symbol::Semicolon => b";",
        Symbol::Dot => b".",
    }
}

/// The word of a truth value.
pub(crate) fn truth(value: bool) -> Symbol
    ensures { result ≡ spec.truth value }
{
    if value { Symbol::True } else { Symbol::False }
}

/// The operator between operands.
pub(crate) fn sign(operator: Operator) -> Symbol
    ensures { result ≡ spec.sign operator }
{
    match operator {
        Operator::Or => Symbol::Or,
        Operator::And => Symbol::And,
        Operator::Plus => Symbol::Plus,
        Operator::Minus => Symbol::Minus,
        Operator::Times => Symbol::Times,
    }
}

/// The mark of a comparison.
pub(crate) fn comparison(relation: Relation) -> Symbol
    ensures { result ≡ spec.comparison relation }
{
    match relation {
        Relation::Equal => Symbol::Equal,
        Relation::Unequal => Symbol::Unequal,
        Relation::Less => Symbol::Less,
        Relation::AtMost => Symbol::AtMost,
        Relation::Greater => Symbol::Greater,
        Relation::AtLeast => Symbol::AtLeast,
    }
}

/// The word of a kind.
pub(crate) fn kind_symbol(kind: Kind) -> Symbol
    ensures { result ≡ spec.kind_symbol kind }
{
    match kind {
        Kind::Bool => Symbol::Bool,
        Kind::Counter => Symbol::Counter,
        Kind::Text => Symbol::Text,
        Kind::Set => Symbol::Set,
        Kind::Hash => Symbol::Hash,
        Kind::List => Symbol::List,
        Kind::Peak => Symbol::Peak,
    }
}

/// The word of a write.
pub(crate) fn write_name(word: WriteWord) -> &'static [u8]
    ensures { result.now ≡ spec.write_name word }
{
    match word {
        WriteWord::Put => b"put",
        WriteWord::Add => b"add",
        WriteWord::Remove => b"remove",
        WriteWord::Clear => b"clear",
        WriteWord::Push => b"push",
        WriteWord::Raise => b"raise",
    }
}

/// The word of a read.
pub(crate) fn read_name(word: ReadWord) -> &'static [u8]
    ensures { result.now ≡ spec.read_name word }
{
    match word {
        ReadWord::Get => b"get",
        ReadWord::Has => b"has",
        ReadWord::All => b"all",
        ReadWord::Fields => b"fields",
        ReadWord::At => b"at",
        ReadWord::Over => b"over",
    }
}
