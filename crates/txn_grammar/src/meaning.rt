//! What a token stands for, as rules ask it: the code of the tables in `specs/Tokens` and of the choices in
//! `specs/code/Forms`.

ghost use Rattle.std.specs.Prelude.{◌≡◌, map};
ghost use Rattle.txn_grammar.specs.Spellings.{same_symbol};
ghost use Rattle.txn_grammar.specs.Tokens as spec;
ghost use Rattle.txn_grammar.specs.code.Forms as form;

use crate::form::{Leaf, Nesting, Opener, Simple};
use crate::operation::{Operation, READS, WRITES};
use crate::rank::Rank;
use crate::symbol::Symbol;
use crate::token::Token;
use rdt_types::Kind;
use txn_trees::{Operator, ReadWord, Relation, WriteWord};

/// Whether the token is this symbol.
#[tactic(auto, unfolding(crate::specs::Spellings::same_symbol))]
pub fn is_symbol(symbol: Symbol, token: &Token) -> bool
    ensures { result ≡ spec.is_symbol symbol token.now }
{
    match token {
        Token::Symbol(found) => *found == symbol,
        _ => false,
    }
}

/// The number that the token is.
pub fn number_of(token: &Token) -> Option<i64>
    ensures { result ≡ spec.number token.now }
{
    match token {
        Token::Number(value) => Some(*value),
        _ => None,
    }
}

/// The truth value that the token is.
pub fn truth_at(token: &Token) -> Option<bool>
    ensures { result ≡ spec.of_symbol spec.truth_of token.now }
{
    match token {
        Token::Symbol(Symbol::True) => Some(true),
        Token::Symbol(Symbol::False) => Some(false),
        _ => None,
    }
}

/// The operator of this rank that the token is.
pub fn operator_at(rank: Rank, token: &Token) -> Option<Operator>
    ensures { result ≡ spec.of_symbol (spec.operator_of rank) token.now }
{
    match (rank, token) {
        (Rank::Disjunction, Token::Symbol(Symbol::Or)) => Some(Operator::Or),
        (Rank::Conjunction, Token::Symbol(Symbol::And)) => Some(Operator::And),
        (Rank::Sum, Token::Symbol(Symbol::Plus)) => Some(Operator::Plus),
        (Rank::Sum, Token::Symbol(Symbol::Minus)) => Some(Operator::Minus),
        (Rank::Product, Token::Symbol(Symbol::Times)) => Some(Operator::Times),
        _ => None,
    }
}

/// The comparison that the token is.
pub fn relation_at(token: &Token) -> Option<Relation>
    ensures { result ≡ spec.of_symbol spec.relation_of token.now }
{
    match token {
        Token::Symbol(Symbol::Equal) => Some(Relation::Equal),
        Token::Symbol(Symbol::Unequal) => Some(Relation::Unequal),
        Token::Symbol(Symbol::Less) => Some(Relation::Less),
        Token::Symbol(Symbol::AtMost) => Some(Relation::AtMost),
        Token::Symbol(Symbol::Greater) => Some(Relation::Greater),
        Token::Symbol(Symbol::AtLeast) => Some(Relation::AtLeast),
        _ => None,
    }
}

/// The kind whose word the token is.
pub fn kind_at(token: &Token) -> Option<Kind>
    ensures { result ≡ spec.of_symbol spec.kind_of token.now }
{
    match token {
        Token::Symbol(Symbol::Bool) => Some(Kind::Bool),
        Token::Symbol(Symbol::Counter) => Some(Kind::Counter),
        Token::Symbol(Symbol::Text) => Some(Kind::Text),
        Token::Symbol(Symbol::Set) => Some(Kind::Set),
        Token::Symbol(Symbol::Hash) => Some(Kind::Hash),
        Token::Symbol(Symbol::List) => Some(Kind::List),
        Token::Symbol(Symbol::Peak) => Some(Kind::Peak),
        _ => None,
    }
}

/// The operation in the row of this kind and spelling.
#[tactic(auto, unfolding(crate::specs::Tokens::same_kind))]
fn operation_in<W: Copy>(
    mut rows: &[(Kind, &[u8], W, usize)],
    kind: Kind,
    spelling: &[u8],
) -> Option<Operation<W>>
    ensures { result ≡ spec.operation_in (map (λ row. (row.0, row.1.now, row.2, row.3)) rows.entry.now) kind spelling.now }
{
    while let [row, rest @ ..] = rows {
        if row.0 == kind && row.1 == spelling {
            return Some(Operation {
                word: row.2,
                arguments: row.3,
            });
        }
        rows = rest;
    }
    None
}

/// The kind's write that the token names.
#[tactic(auto, unfolding(crate::specs::Tokens::write_named))]
pub fn write_at(kind: Kind, token: &Token) -> Option<Operation<WriteWord>>
    ensures { result ≡ spec.write_of kind token.now }
{
    match token {
        Token::Name(name) => operation_in(&WRITES, kind, name.as_slice()),
        _ => None,
    }
}

/// The kind's read that the token names.
#[tactic(auto, unfolding(crate::specs::Tokens::read_named))]
pub fn read_at(kind: Kind, token: &Token) -> Option<Operation<ReadWord>>
    ensures { result ≡ spec.read_of kind token.now }
{
    match token {
        Token::Name(name) => operation_in(&READS, kind, name.as_slice()),
        _ => None,
    }
}

/// The leaf that the token is.
pub fn leaf_of(token: &Token) -> Option<Leaf>
    ensures { result ≡ form.leaf_of token.now }
{
    match token {
        Token::Number(_) => Some(Leaf::Number),
        Token::Text(_) => Some(Leaf::Text),
        Token::Name(_) => Some(Leaf::Name),
        Token::Symbol(Symbol::True | Symbol::False) => Some(Leaf::Truth),
        _ => None,
    }
}

/// The expression that the token opens.
pub fn opener_of(token: &Token) -> Option<Opener>
    ensures { result ≡ spec.of_symbol form.opener_of token.now }
{
    match token {
        Token::Symbol(Symbol::Minus) => Some(Opener::Negative),
        Token::Symbol(Symbol::OpenParen) => Some(Opener::Group),
        Token::Symbol(Symbol::Len) => Some(Opener::Len),
        Token::Symbol(Symbol::Str) => Some(Opener::Str),
        Token::Symbol(Symbol::OpenBracket) => Some(Opener::Texts),
        Token::Symbol(
            Symbol::Bool
            | Symbol::Counter
            | Symbol::Text
            | Symbol::Set
            | Symbol::Hash
            | Symbol::List
            | Symbol::Peak,
        ) => Some(Opener::Read),
        _ => None,
    }
}

/// The simple statement that the token begins.
pub fn simple_of(token: &Token) -> Option<Simple>
    ensures { result ≡ spec.of_symbol form.simple_of token.now }
{
    match token {
        Token::Symbol(Symbol::Let) => Some(Simple::Let),
        Token::Symbol(Symbol::Emit) => Some(Simple::Emit),
        Token::Symbol(Symbol::Fail) => Some(Simple::Fail),
        _ => None,
    }
}

/// The nesting statement that the token begins.
pub fn nesting_of(token: &Token) -> Option<Nesting>
    ensures { result ≡ spec.of_symbol form.nesting_of token.now }
{
    match token {
        Token::Symbol(Symbol::If) => Some(Nesting::If),
        Token::Symbol(Symbol::For) => Some(Nesting::For),
        Token::Symbol(
            Symbol::Bool
            | Symbol::Counter
            | Symbol::Text
            | Symbol::Set
            | Symbol::Hash
            | Symbol::List
            | Symbol::Peak,
        ) => Some(Nesting::Write),
        _ => None,
    }
}
