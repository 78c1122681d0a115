//! Prints expressions.

ghost use Rattle.std.specs.Prelude.{◌≡◌, ◌∷◌, ◌++◌, map, OnOk};
ghost use Rattle.std.specs.List.{flat_map};
ghost use Rattle.txn_grammar.specs.declared.symbol.Symbol.TheVariants as symbol;
ghost use Rattle.txn_print.specs.declared.place.Place.TheVariants as place;
ghost use Rattle.txn_print.specs.Pieces.{written, word};
ghost use Rattle.txn_print.specs.Canonical as spec;

use crate::line::Line;
use crate::place::{Place, chain_place, operand_place};
use crate::spelling::{comparison, kind_symbol, read_name, sign, truth};
use rdt_types::Kind;
use std::alloc::{AllocError, Global};
use txn_grammar::Symbol;
use txn_trees::{Expr, ExprNode, Operand};

/// The rule of a chain, by its first operator.
fn chain_rank(rest: &[Operand]) -> Place
    ensures { result ≡ (spec.ranks (map spec.shown_operand rest.now)).0 }
{
    match rest.first() {
        Some(next) => chain_place(next.operator),
        None => Place::Unary,
    }
}

/// The rule of a chain's first operand.
fn first_place(rest: &[Operand]) -> Place
    ensures { result ≡ (spec.ranks (map spec.shown_operand rest.now)).1 }
{
    match rest.first() {
        Some(next) => operand_place(next.operator),
        None => Place::Unary,
    }
}

/// The rule of an expression in the grammar.
#[tactic(auto, unfolding(crate::specs::Canonical::shown))]
fn rank_of(e: &Expr) -> Place
    ensures { result ≡ (spec.shown e.now).rank }
{
    match &e.node {
        ExprNode::Chain(_, rest) => chain_rank(rest.as_slice()),
        ExprNode::Not(_) => Place::Negation,
        ExprNode::Compare(_, _, _) => Place::Comparison,
        _ => Place::Unary,
    }
}

/// Prints an expression at a place: in parentheses exactly where its rule isn't reached from there without them.
#[cycle(expression)]
pub(crate) fn push_expr(
    alloc: Global,
    line: &mut Line,
    e: &Expr,
    place: Place,
) -> Result<(), AllocError>
    ensures { OnOk result (line.new ≡ written line.old (spec.at place (spec.shown e.now))) }
{
    if !rank_of(e).needs_parens(place) {
        return push_bare(alloc, line, e);
    }
    line.opening(Symbol::OpenParen)?;
    push_bare(alloc, line, e)?;
    line.closing(Symbol::CloseParen)
}

/// Prints an expression without parentheses of its own.
#[cycle(expression)]
fn push_bare(alloc: Global, line: &mut Line, e: &Expr) -> Result<(), AllocError>
    ensures { OnOk result (line.new ≡ written line.old (spec.shown e.now).pieces) }
{
    match &e.node {
        ExprNode::Number(value) => line.number(alloc, *value),
        ExprNode::Text(bytes) => line.quoted(alloc, bytes),
        ExprNode::Bool(value) => line.word(truth(*value)),
        ExprNode::Name(name) => line.name(name.as_slice()),
        ExprNode::Texts(elements) => {
            line.opening(Symbol::OpenBracket)?;
            push_separated(alloc, line, elements.as_slice())?;
            line.closing(Symbol::CloseBracket)
        }
        ExprNode::Len(argument) => {
            line.word(Symbol::Len)?;
            push_given(alloc, line, argument.get())
        }
        ExprNode::Str(argument) => {
            line.word(Symbol::Str)?;
            push_given(alloc, line, argument.get())
        }
        ExprNode::Negative(value) => {
            line.opening(Symbol::Minus)?;
            push_expr(alloc, line, value.get(), Place::Unary)
        }
        ExprNode::Not(value) => {
            line.word(Symbol::Not)?;
            push_expr(alloc, line, value.get(), Place::Negation)
        }
        ExprNode::Compare(left, relation, right) => {
            push_expr(alloc, line, left.get(), Place::Sum)?;
            line.word(comparison(*relation))?;
            push_expr(alloc, line, right.get(), Place::Sum)
        }
        ExprNode::Chain(first, rest) => {
            push_expr(alloc, line, first.get(), first_place(rest.as_slice()))?;
            push_further(alloc, line, rest.as_slice())
        }
        ExprNode::Read(kind, key, word, arguments) => {
            push_target(alloc, line, *kind, key.get())?;
            push_request(alloc, line, read_name(*word), arguments.as_slice())
        }
    }
}

/// Prints operands, each behind its operator.
#[cycle(expression)]
fn push_further(alloc: Global, line: &mut Line, rest: &[Operand]) -> Result<(), AllocError>
    ensures { OnOk result (line.new ≡ written line.old (flat_map spec.further (map spec.shown_operand rest.now))) }
{
    for operand in rest {
        line.word(sign(operand.operator))?;
        push_expr(alloc, line, &operand.value, operand_place(operand.operator))?;
    }
    Ok(())
}

/// Prints an expression in parentheses behind a word.
#[cycle(expression)]
fn push_given(alloc: Global, line: &mut Line, argument: &Expr) -> Result<(), AllocError>
    ensures { OnOk result (line.new ≡ written line.old (spec.given (spec.expression argument.now))) }
{
    line.joining(Symbol::OpenParen)?;
    push_expr(alloc, line, argument, Place::Disjunction)?;
    line.closing(Symbol::CloseParen)
}

/// Prints expressions with a comma between each two.
#[cycle(expression)]
fn push_separated(alloc: Global, line: &mut Line, elements: &[Expr]) -> Result<(), AllocError>
    ensures { OnOk result (line.new ≡ written line.old (spec.separated (map spec.expression elements.now))) }
{
    let Some((first, rest)) = elements.split_first() else {
        return Ok(());
    };
    push_expr(alloc, line, first, Place::Disjunction)?;
    for element in rest {
        line.closing(Symbol::Comma)?;
        push_expr(alloc, line, element, Place::Disjunction)?;
    }
    Ok(())
}

/// Prints the kind and the key of an operation, and the dot behind them.
#[cycle(expression)]
pub(crate) fn push_target(
    alloc: Global,
    line: &mut Line,
    kind: Kind,
    key: &Expr,
) -> Result<(), AllocError>
    ensures { OnOk result (line.new ≡ written line.old (spec.target kind (spec.expression key.now))) }
{
    line.word(kind_symbol(kind))?;
    push_given(alloc, line, key)?;
    line.joining(Symbol::Dot)
}

/// Prints the word of an operation, and its arguments.
#[cycle(expression)]
pub(crate) fn push_request(
    alloc: Global,
    line: &mut Line,
    name: &[u8],
    arguments: &[Expr],
) -> Result<(), AllocError>
    ensures { OnOk result (line.new ≡ written line.old (spec.request name.now (map spec.expression arguments.now))) }
{
    line.name(name)?;
    line.joining(Symbol::OpenParen)?;
    push_separated(alloc, line, arguments)?;
    line.closing(Symbol::CloseParen)
}
