//! One token: what is ahead, each reader of one token, and the expressions that one token is. A reader takes the token
//! ahead, or refuses and leaves it there.

ghost use Rattle.std.specs.Prelude.{◌≡◌, ℕ, List, Option, None};
ghost use Rattle.std.specs.Option.{option_map};
ghost use Rattle.std.specs.Fn.{FnOnceReturnsAt};
ghost use Rattle.predictive_parsing.specs.Reading as read;
ghost use Rattle.predictive_parsing.specs.Reads.{Reads, OnlyRefuses, made_of, Computes};
ghost use Rattle.txn_grammar.specs.declared.token.Spot.{Spot};
ghost use Rattle.txn_grammar.specs.Tokens as spec;
ghost use Rattle.txn_grammar.specs.code.Forms.{of_next};
ghost use Rattle.txn_grammar.specs.code.Reader as reader;
ghost use Rattle.txn_parse.specs.code.Begun as begun;
ghost use Rattle.txn_parse.specs.code.Found.{lent};

use plain_data::{OrNoMemory, Text};
use predictive_parsing::{Cursor, Refused};
use rdt_types::Kind;
use txn_grammar::{
    Leaf, Operation, Rank, Spot, Symbol, Token, is_symbol, kind_at, leaf_of, number_of,
    operator_at, read_at, relation_at, truth_at, write_at,
};
use txn_trees::{Expr, ExprNode, Operator, ReadWord, Relation, WriteWord};

// ---- what is ahead

/// What the function makes of the token ahead.
pub(crate) fn ahead<B, F: FnOnce(&Spot) -> Option<B>>(cursor: &Cursor<Spot>, make: F) -> Option<B>
    requires { F.IsAlwaysCallable make }
    ensures { (f : Spot → Option B) → Computes (FnOnceReturnsAt F.FnOnce make) f → result ≡ of_next f (read.next cursor.now) }
{
    match cursor.peek() {
        Some(spot) => make(spot),
        None => None,
    }
}

/// Whether the function makes something of the token ahead.
pub(crate) fn begins<B: Drop, F: FnOnce(&Spot) -> Option<B>>(cursor: &Cursor<Spot>, make: F) -> bool
    requires { F.IsAlwaysCallable make }
    ensures { (f : Spot → Option B) → Computes (FnOnceReturnsAt F.FnOnce make) f → result ≡ read.begins f (read.next cursor.now) }
{
    ahead(cursor, make).is_some()
}

/// The column of this symbol.
fn symbol_at(symbol: Symbol, spot: &Spot) -> Option<u32>
    ensures { result ≡ spec.symbol_at symbol spot.now }
{
    if is_symbol(symbol, &spot.token) {
        Some(spot.column)
    } else {
        None
    }
}

/// Whether this symbol is ahead.
pub(crate) fn sees(cursor: &Cursor<Spot>, symbol: Symbol) -> bool
    ensures { result ≡ reader.sees symbol (read.next cursor.now) }
{
    begins(cursor, |spot| symbol_at(symbol, spot))
}

/// The operator of this rank, with its column.
fn operator_spot(rank: Rank, spot: &Spot) -> Option<(u32, Operator)>
    ensures { result ≡ spec.at (spec.of_symbol (spec.operator_of rank)) spot.now }
{
    at(spot, operator_at(rank, &spot.token))
}

/// Whether an operator of this rank is ahead.
pub(crate) fn sees_operator(cursor: &Cursor<Spot>, rank: Rank) -> bool
    ensures { result ≡ reader.begins_operator rank (read.next cursor.now) }
{
    begins(cursor, |spot| operator_spot(rank, spot))
}

/// Whether a comparison is ahead.
pub(crate) fn sees_relation(cursor: &Cursor<Spot>) -> bool
    ensures { result ≡ reader.begins_relation (read.next cursor.now) }
{
    begins(cursor, |spot| at(spot, relation_at(&spot.token)))
}

/// Whether an operator or a comparison is ahead.
#[tactic(auto, unfolding(crate::specs::code::Begun::joins))]
pub(crate) fn joins(cursor: &Cursor<Spot>) -> bool
    ensures { result ≡ begun.joins (read.next cursor.now) }
{
    sees_operator(cursor, Rank::Product)
        || sees_operator(cursor, Rank::Sum)
        || sees_relation(cursor)
        || sees_operator(cursor, Rank::Conjunction)
        || sees_operator(cursor, Rank::Disjunction)
}

// ---- one token

/// What was made of a token, with the token's column.
fn at<A: Copy>(spot: &Spot, made: Option<A>) -> Option<(u32, A)>
    ensures { result ≡ option_map (λ a. (spot.now.column, a)) made }
{
    Some((spot.column, made?))
}

/// Takes this symbol, and answers its column.
#[tactic(auto, unfolding(txn_grammar::specs::code::Reader::word))]
pub(crate) fn word(cursor: &mut Cursor<Spot>, symbol: Symbol) -> Result<u32, OrNoMemory<Refused>>
    ensures reads { Reads (reader.word symbol cursor.old) result cursor.new }
    ensures refusal { OnlyRefuses result }
{
    cursor.take(|spot| symbol_at(symbol, spot))
}

/// Takes a number, with its column.
pub(crate) fn number(cursor: &mut Cursor<Spot>) -> Result<(u32, i64), OrNoMemory<Refused>>
    ensures reads { Reads (read.one (spec.at spec.number) cursor.old) result cursor.new }
    ensures refusal { OnlyRefuses result }
{
    cursor.take(|spot| at(spot, number_of(&spot.token)))
}

/// Takes a truth value, with its column.
pub(crate) fn truth(cursor: &mut Cursor<Spot>) -> Result<(u32, bool), OrNoMemory<Refused>>
    ensures reads { Reads (read.one (spec.at (spec.of_symbol spec.truth_of)) cursor.old) result cursor.new }
    ensures refusal { OnlyRefuses result }
{
    cursor.take(|spot| at(spot, truth_at(&spot.token)))
}

/// Takes an operator of this rank, with its column.
pub(crate) fn operator(
    cursor: &mut Cursor<Spot>,
    rank: Rank,
) -> Result<(u32, Operator), OrNoMemory<Refused>>
    ensures reads { Reads (read.one (spec.at (spec.of_symbol (spec.operator_of rank))) cursor.old) result cursor.new }
    ensures refusal { OnlyRefuses result }
{
    cursor.take(|spot| operator_spot(rank, spot))
}

/// Takes a comparison, with its column.
pub(crate) fn relation(cursor: &mut Cursor<Spot>) -> Result<(u32, Relation), OrNoMemory<Refused>>
    ensures reads { Reads (read.one (spec.at (spec.of_symbol spec.relation_of)) cursor.old) result cursor.new }
    ensures refusal { OnlyRefuses result }
{
    cursor.take(|spot| at(spot, relation_at(&spot.token)))
}

/// Takes the word of a kind, with its column.
#[inline(always)]
pub(crate) fn kind(cursor: &mut Cursor<Spot>) -> Result<(u32, Kind), OrNoMemory<Refused>>
    ensures reads { Reads (read.one (spec.at (spec.of_symbol spec.kind_of)) cursor.old) result cursor.new }
    ensures refusal { OnlyRefuses result }
{
    cursor.take(|spot| at(spot, kind_at(&spot.token)))
}

/// Takes the word of one of the kind's writes, with its column.
pub(crate) fn write(
    cursor: &mut Cursor<Spot>,
    kind: Kind,
) -> Result<(u32, Operation<WriteWord>), OrNoMemory<Refused>>
    ensures reads { Reads (read.one (spec.at (spec.write_of kind)) cursor.old) result cursor.new }
    ensures refusal { OnlyRefuses result }
{
    cursor.take(|spot| at(spot, write_at(kind, &spot.token)))
}

/// Takes the word of one of the kind's reads, with its column.
pub(crate) fn read(
    cursor: &mut Cursor<Spot>,
    kind: Kind,
) -> Result<(u32, Operation<ReadWord>), OrNoMemory<Refused>>
    ensures reads { Reads (read.one (spec.at (spec.read_of kind)) cursor.old) result cursor.new }
    ensures refusal { OnlyRefuses result }
{
    cursor.take(|spot| at(spot, read_at(kind, &spot.token)))
}

/// The name ahead, lent, with its column.
fn name_ahead<'a>(cursor: &Cursor<'a, Spot>) -> Option<(u32, &'a Text)>
    ensures { lent result ≡ made_of (spec.at spec.name) cursor.now }
{
    let spot = cursor.peek()?;
    match &spot.token {
        Token::Name(found) => Some((spot.column, found)),
        _ => None,
    }
}

/// The text ahead, lent, with its column.
fn text_ahead<'a>(cursor: &Cursor<'a, Spot>) -> Option<(u32, &'a Text)>
    ensures { lent result ≡ made_of (spec.at spec.text) cursor.now }
{
    let spot = cursor.peek()?;
    match &spot.token {
        Token::Text(found) => Some((spot.column, found)),
        _ => None,
    }
}

/// Takes the token ahead with a copy of what was found in it, and refuses it where nothing was. Only what was found wants memory.
fn take_copy(
    cursor: &mut Cursor<Spot>,
    found: Option<(u32, &Text)>,
) -> Result<(u32, Text), OrNoMemory<Refused>>
    ensures reads { (f : Spot → Option (ℕ × List ℕ)) → lent found.entry ≡ made_of f cursor.old
        → Reads (read.one f cursor.old) result cursor.new }
    ensures refusal { found.entry ≡ None → OnlyRefuses result }
{
    let Some((column, text)) = found else {
        return Err(OrNoMemory::Cause(Refused));
    };
    let copy = text.clone()?;
    cursor.skip();
    Ok((column, copy))
}

/// Takes a name, with its column.
pub(crate) fn name(cursor: &mut Cursor<Spot>) -> Result<(u32, Text), OrNoMemory<Refused>>
    ensures { Reads (read.one (spec.at spec.name) cursor.old) result cursor.new }
{
    let found = name_ahead(cursor);
    take_copy(cursor, found)
}

/// Takes a text, with its column.
pub(crate) fn text(cursor: &mut Cursor<Spot>) -> Result<(u32, Text), OrNoMemory<Refused>>
    ensures { Reads (read.one (spec.at spec.text) cursor.old) result cursor.new }
{
    let found = text_ahead(cursor);
    take_copy(cursor, found)
}

// ---- expressions of one token

#[tactic(auto, unfolding(txn_grammar::specs::code::Reader::number_leaf))]
fn number_leaf(cursor: &mut Cursor<Spot>) -> Result<Expr, OrNoMemory<Refused>>
    ensures { Reads (reader.number_leaf cursor.old) result cursor.new }
{
    let (column, value) = number(cursor)?;
    Ok(Expr {
        column,
        node: ExprNode::Number(value),
    })
}

#[tactic(auto, unfolding(txn_grammar::specs::code::Reader::text_leaf))]
fn text_leaf(cursor: &mut Cursor<Spot>) -> Result<Expr, OrNoMemory<Refused>>
    ensures { Reads (reader.text_leaf cursor.old) result cursor.new }
{
    let (column, bytes) = text(cursor)?;
    Ok(Expr {
        column,
        node: ExprNode::Text(bytes),
    })
}

#[tactic(auto, unfolding(txn_grammar::specs::code::Reader::truth_leaf))]
fn truth_leaf(cursor: &mut Cursor<Spot>) -> Result<Expr, OrNoMemory<Refused>>
    ensures { Reads (reader.truth_leaf cursor.old) result cursor.new }
{
    let (column, value) = truth(cursor)?;
    Ok(Expr {
        column,
        node: ExprNode::Bool(value),
    })
}

#[tactic(auto, unfolding(txn_grammar::specs::code::Reader::name_leaf))]
fn name_leaf(cursor: &mut Cursor<Spot>) -> Result<Expr, OrNoMemory<Refused>>
    ensures { Reads (reader.name_leaf cursor.old) result cursor.new }
{
    let (column, found) = name(cursor)?;
    Ok(Expr {
        column,
        node: ExprNode::Name(found),
    })
}

/// The expression of one token that is ahead.
#[tactic(auto, using(crate::proofs::Levels::leaf_chosen))]
#[inline(always)]
pub(crate) fn leaf(cursor: &mut Cursor<Spot>) -> Result<Expr, OrNoMemory<Refused>>
    ensures { Reads (reader.a_leaf cursor.old) result cursor.new }
{
    match ahead(cursor, |spot| leaf_of(&spot.token)).unwrap_or(Leaf::Name) {
        Leaf::Number => number_leaf(cursor),
        Leaf::Text => text_leaf(cursor),
        Leaf::Truth => truth_leaf(cursor),
        Leaf::Name => name_leaf(cursor),
    }
}
