//! Types of expressions, and names that statements bind.

ghost use Rattle.std.specs.Prelude.{◌≡◌, ◌≤◌, map, take, length, None, Some, Result, Ok, Err};
ghost use Rattle.std.specs.Option as Option;
ghost use Rattle.txn_lang.specs.Types as types;
ghost use Rattle.txn_lang.specs.Typing as spec;
ghost use Rattle.txn_lang.specs.code.Checking.{Fits};

use crate::environment::Environment;
use crate::item_type::Type;
use plain_data::Text;
use rdt_types::Kind;
use txn_trees::{Expr, ExprNode, Operand, Operator, ReadWord, Relation};

fn same(a: Type, b: Type) -> bool
    ensures { result ≡ types.same a b }
{
    match (a, b) {
        (Type::Int, Type::Int) => true,
        (Type::Bool, Type::Bool) => true,
        (Type::Text, Type::Text) => true,
        (Type::Texts, Type::Texts) => true,
        _ => false,
    }
}

fn has_length(t: Type) -> bool
    ensures { result ≡ types.has_length t }
{
    match t {
        Type::Text | Type::Texts => true,
        _ => false,
    }
}

fn has_sum(t: Type) -> bool
    ensures { result ≡ types.has_sum t }
{
    match t {
        Type::Int | Type::Text => true,
        _ => false,
    }
}

fn may_compare(relation: Relation, t: Type) -> bool
    ensures { result ≡ types.may_compare relation t }
{
    match relation {
        Relation::Equal | Relation::Unequal => has_sum(t) || same(t, Type::Bool),
        _ => same(t, Type::Int),
    }
}

fn takes(operator: Operator, t: Type) -> bool
    ensures { result ≡ types.takes operator t }
{
    match operator {
        Operator::Or | Operator::And => same(t, Type::Bool),
        Operator::Plus => has_sum(t),
        Operator::Minus | Operator::Times => same(t, Type::Int),
    }
}

fn may_begin(operator: Operator, t: Type) -> bool
    ensures { result ≡ types.may_begin operator t }
{
    match operator {
        Operator::Minus => has_sum(t),
        _ => takes(operator, t),
    }
}

/// What the arguments of a write are.
fn written_type(kind: Kind) -> Type
    ensures { result ≡ types.written_type kind }
{
    match kind {
        Kind::Bool => Type::Bool,
        Kind::Counter | Kind::Peak => Type::Int,
        Kind::Text | Kind::Set | Kind::Hash | Kind::List => Type::Text,
    }
}

fn asked_type(word: ReadWord) -> Type
    ensures { result ≡ types.asked_type word }
{
    match word {
        ReadWord::At | ReadWord::Over => Type::Int,
        _ => Type::Text,
    }
}

fn answered_type(kind: Kind, word: ReadWord) -> Type
    ensures { result ≡ types.answered_type kind word }
{
    match (kind, word) {
        (Kind::Bool, ReadWord::Get) => Type::Bool,
        (Kind::Counter, ReadWord::Get) | (Kind::Peak, ReadWord::Get) => Type::Int,
        (_, ReadWord::Has) | (_, ReadWord::Over) => Type::Bool,
        (_, ReadWord::All) | (_, ReadWord::Fields) => Type::Texts,
        _ => Type::Text,
    }
}

/// A complaint at a column, unless something holds.
fn unless(holds: bool, column: u32) -> Option<u32>
    ensures { result ≡ spec.unless holds column }
{
    if holds { None } else { Some(column) }
}

/// The complaint that was made first.
fn first_of(complaint: Option<u32>, next: Option<u32>) -> Option<u32>
    ensures { result ≡ Option.option_or complaint next }
{
    match complaint {
        Some(column) => Some(column),
        None => next,
    }
}

/// A type, unless there is a complaint.
fn told(complaint: Option<u32>, t: Type) -> Result<Type, u32>
    ensures { result ≡ spec.told complaint t }
{
    match complaint {
        None => Ok(t),
        Some(column) => Err(column),
    }
}

/// Expressions that are each to be of one type. The first complaint is kept until all were gone through.
#[cycle(judged)]
#[inline(always)]
fn all_of(
    names: &Environment<Type>,
    wanted: Type,
    complaint: Option<u32>,
    exprs: &[Expr],
) -> Result<Option<u32>, u32>
    ensures { result ≡ spec.all_of wanted complaint (map spec.typed exprs.now) names.now }
{
    let mut complaint = complaint;
    for expr in exprs {
        let t = type_of(names, expr)?;
        complaint = first_of(complaint, unless(same(t, wanted), expr.column));
    }
    Ok(complaint)
}

/// Whether an operand fits in a chain whose first one is of this type.
fn fits(operator: Operator, first: Type, t: Type) -> bool
    ensures { result ≡ spec.fits operator first t }
{
    same(t, first) && takes(operator, first)
}

fn may_be_first(t: Type, operands: &[Operand]) -> bool
    ensures { result ≡ spec.may_be_first t (map spec.judged_operand operands.now) }
{
    match operands {
        [] => true,
        [operand, ..] => may_begin(operand.operator, t),
    }
}

/// The further operands of a chain whose first one is of this type.
#[cycle(judged)]
fn operands_of(
    names: &Environment<Type>,
    first: Type,
    complaint: Option<u32>,
    operands: &[Operand],
) -> Result<Option<u32>, u32>
    ensures { result ≡ spec.operands_of first complaint (map spec.judged_operand operands.now) names.now }
{
    let mut complaint = complaint;
    for operand in operands {
        let t = type_of(names, &operand.value)?;
        complaint = first_of(
            complaint,
            unless(fits(operand.operator, first, t), operand.value.column),
        );
    }
    Ok(complaint)
}

/// The type of an expression that has to be of one type.
#[cycle(judged)]
pub(crate) fn expect(names: &Environment<Type>, wanted: Type, expr: &Expr) -> Result<Type, u32>
    ensures { result ≡ spec.expect wanted expr.now names.now }
{
    let t = type_of(names, expr)?;
    told(unless(same(t, wanted), expr.column), t)
}

/// The type that a name is bound to, if it is.
fn bound_to(names: &Environment<Type>, name: &Text) -> Option<Type>
    ensures { result ≡ types.type_bound names.now name.now }
{
    names.get(name).copied()
}

/// The type of a key, as `type_of` answers it. Most keys are literal texts.
#[cycle(judged)]
#[inline(always)]
fn key_type(names: &Environment<Type>, key: &Expr) -> Result<Type, u32>
    ensures { result ≡ spec.type_of key.now names.now }
{
    match &key.node {
        ExprNode::Text(_) => Ok(Type::Text),
        _ => type_of(names, key),
    }
}

/// The type of an expression, or the column at which a rule fails first.
#[cycle(judged)]
pub(crate) fn type_of(names: &Environment<Type>, expr: &Expr) -> Result<Type, u32>
    ensures { result ≡ spec.type_of expr.now names.now }
{
    match &expr.node {
        ExprNode::Number(_) => Ok(Type::Int),
        ExprNode::Text(_) => Ok(Type::Text),
        ExprNode::Bool(_) => Ok(Type::Bool),
        ExprNode::Name(name) => bound_to(names, name).ok_or(expr.column),
        ExprNode::Texts(elements) => {
            let complaint = all_of(names, Type::Text, None, elements.as_slice())?;
            told(complaint, Type::Texts)
        }
        ExprNode::Len(a) => {
            let t = type_of(names, a.get())?;
            told(unless(has_length(t), a.get().column), Type::Int)
        }
        ExprNode::Str(a) => {
            let _ = expect(names, Type::Int, a.get())?;
            Ok(Type::Text)
        }
        ExprNode::Negative(a) => expect(names, Type::Int, a.get()),
        ExprNode::Not(a) => expect(names, Type::Bool, a.get()),
        ExprNode::Compare(a, relation, b) => {
            let left = type_of(names, a.get())?;
            let right = type_of(names, b.get())?;
            let left_complaint = unless(may_compare(*relation, left), a.get().column);
            let right_complaint = unless(same(right, left), b.get().column);
            told(first_of(left_complaint, right_complaint), Type::Bool)
        }
        ExprNode::Chain(a, operands) => {
            let t = type_of(names, a.get())?;
            let first = unless(may_be_first(t, operands.as_slice()), a.get().column);
            let complaint = operands_of(names, t, first, operands.as_slice())?;
            told(complaint, t)
        }
        ExprNode::Read(kind, key, word, arguments) => {
            let t = key_type(names, key.get())?;
            let first = unless(same(t, Type::Text), key.get().column);
            let complaint = all_of(names, asked_type(*word), first, arguments.as_slice())?;
            told(complaint, answered_type(*kind, *word))
        }
    }
}

/// Whether a write's key and arguments are of their types, or the column at which a rule fails first.
pub(crate) fn judge_write(
    names: &Environment<Type>,
    kind: Kind,
    key: &Expr,
    arguments: &[Expr],
) -> Result<(), u32>
    ensures { Fits result names.now (spec.judge_write kind key.now arguments.now names.now) }
{
    let t = key_type(names, key)?;
    let first = unless(same(t, Type::Text), key.column);
    match all_of(names, written_type(kind), first, arguments)? {
        None => Ok(()),
        Some(column) => Err(column),
    }
}
