//! Operands and what joins them. Each reader takes the reader of an operand as a parameter.

ghost use Rattle.std.specs.Prelude.{◌≡◌};
ghost use Rattle.predictive_parsing.specs.Reading.{many};
ghost use Rattle.txn_grammar.specs.code.Reader as spec;
ghost use Rattle.txn_parse.specs.code.Begun as begun;
ghost use Rattle.txn_parse.specs.code.Closures.{ReadsOver};

use crate::Stop;
use crate::token::{operator, relation, sees_operator, sees_relation};
use crate::tree::{both, chained, compared};
use plain_data::Sequence;
use predictive_parsing::Cursor;
use std::alloc::Global;
use txn_grammar::{Rank, Spot};
use txn_trees::{Expr, Operand, OperandList, Relation};

/// An operator of this rank, and an operand.
fn further<R: Fn(&mut Cursor<'_, Spot>) -> Result<Expr, Stop>>(
    cursor: &mut Cursor<Spot>,
    rank: Rank,
    operand: &R,
) -> Result<Operand, Stop>
    requires { R.IsAlwaysCallable operand.now }
    ensures { ReadsOver R.Fn operand.now (spec.further rank) cursor.old result cursor.new }
{
    let (_, operator) = operator(cursor, rank)?;
    let value = operand(cursor)?;
    Ok(Operand { operator, value })
}

/// As many of them as there are.
fn others<R: Fn(&mut Cursor<'_, Spot>) -> Result<Expr, Stop>>(
    alloc: Global,
    cursor: &mut Cursor<Spot>,
    rank: Rank,
    operand: &R,
) -> Result<OperandList, Stop>
    requires { R.IsAlwaysCallable operand.now }
    ensures { ReadsOver R.Fn operand.now (λ reader. many (spec.begins_operator rank) (spec.further rank reader)) cursor.old result cursor.new }
{
    let mut found = Sequence::new(alloc);
    for _ in 0..cursor.len() {
        if !sees_operator(cursor, rank) {
            return Ok(found);
        }
        let next = further(cursor, rank, operand)?;
        found.push(next)?;
    }
    Ok(found)
}

/// Operands joined by operators of this rank, the first of which is read already.
pub(crate) fn chain<R: Fn(&mut Cursor<'_, Spot>) -> Result<Expr, Stop>>(
    alloc: Global,
    cursor: &mut Cursor<Spot>,
    rank: Rank,
    first: Expr,
    operand: R,
) -> Result<Expr, Stop>
    requires { R.IsAlwaysCallable operand }
    ensures { ReadsOver R.Fn operand (λ reader. begun.chain rank reader first) cursor.old result cursor.new }
{
    if !sees_operator(cursor, rank) {
        return Ok(first);
    }
    let others = others(alloc, cursor, rank, &operand);
    let (first, others) = both(first, others)?;
    let expr = chained(alloc, first, others)?;
    Ok(expr)
}

/// A comparison, and its other side.
fn other_side<R: Fn(&mut Cursor<'_, Spot>) -> Result<Expr, Stop>>(
    cursor: &mut Cursor<Spot>,
    side: &R,
) -> Result<(Relation, Expr), Stop>
    requires { R.IsAlwaysCallable side.now }
    ensures { ReadsOver R.Fn side.now spec.other_side cursor.old result cursor.new }
{
    let (_, relation) = relation(cursor)?;
    let right = side(cursor)?;
    Ok((relation, right))
}

/// One side, which is read already, or two that are compared.
pub(crate) fn comparison<R: Fn(&mut Cursor<'_, Spot>) -> Result<Expr, Stop>>(
    alloc: Global,
    cursor: &mut Cursor<Spot>,
    left: Expr,
    side: R,
) -> Result<Expr, Stop>
    requires { R.IsAlwaysCallable side }
    ensures { ReadsOver R.Fn side (λ reader. begun.comparison reader left) cursor.old result cursor.new }
{
    if !sees_relation(cursor) {
        return Ok(left);
    }
    let other = other_side(cursor, &side);
    let (left, (relation, right)) = both(left, other)?;
    let expr = compared(alloc, left, relation, right)?;
    Ok(expr)
}
