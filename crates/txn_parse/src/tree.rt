//! Trees: what is kept of them while more is read, and how they are put together. A tree that lives across a `?` would be
//! let go on that way out, which a check has to follow; what is kept here is a value of any type.

ghost use Rattle.std.specs.Prelude.{◌≡◌, ◌∷◌, Some, Ok, Err, IfOk, IfErr};
ghost use Rattle.txn_grammar.specs.Trees as tree;

use crate::Stop;
use plain_data::{Boxed, Sequence};
use std::alloc::{AllocError, Global};
use txn_trees::{Expr, ExprNode, OperandList, Relation};

/// What was read first, and what was read behind it, where this was read.
pub(crate) fn both<A: Drop, B>(first: A, next: Result<B, Stop>) -> Result<(A, B), Stop>
    ensures read { IfOk result (λ both. (both.0 ≡ first) × (next ≡ Ok both.1)) }
    ensures stops { IfErr result (λ stop. next ≡ Err stop) }
{
    match next {
        Ok(next) => Ok((first, next)),
        Err(stop) => Err(stop),
    }
}

/// A first item, and those behind it.
#[inline(always)]
pub(crate) fn in_front<T: Drop>(first: T, others: Sequence<T>) -> Result<Sequence<T>, AllocError>
    ensures { IfOk result (λ all. all ≡ first ∷ others) }
{
    let mut all = others;
    all.insert(0, first)?;
    Ok(all)
}

/// The value on the heap, and what is kept beside it.
pub(crate) fn boxed_beside<A: Drop, B: Drop>(
    alloc: Global,
    value: A,
    kept: B,
) -> Result<(Boxed<A>, B), AllocError>
    ensures { IfOk result (λ both. (both.0 ≡ value) × (both.1 ≡ kept)) }
{
    let value = Boxed::new(alloc, value)?;
    Ok((value, kept))
}

/// What stands in parentheses, at the opening one.
pub(crate) fn grouped(column: u32, inner: Expr) -> Expr
    ensures { result ≡ tree.grouped column inner }
{
    Expr {
        column,
        node: inner.node,
    }
}

/// A first operand and the others: a chain where there are others.
pub(crate) fn chained(alloc: Global, first: Expr, others: OperandList) -> Result<Expr, AllocError>
    ensures { IfOk result (λ expr. expr ≡ tree.chained (first, others)) }
{
    if others.is_empty() {
        return Ok(first);
    }
    let column = first.column;
    let (first, others) = boxed_beside(alloc, first, others)?;
    Ok(Expr {
        column,
        node: ExprNode::Chain(first, others),
    })
}

/// Two sides that are compared.
pub(crate) fn compared(
    alloc: Global,
    left: Expr,
    relation: Relation,
    right: Expr,
) -> Result<Expr, AllocError>
    ensures { IfOk result (λ expr. expr ≡ tree.compared left (Some (relation, right))) }
{
    let column = left.column;
    let (left, right) = boxed_beside(alloc, left, right)?;
    let (right, left) = boxed_beside(alloc, right, left)?;
    Ok(Expr {
        column,
        node: ExprNode::Compare(left, relation, right),
    })
}
