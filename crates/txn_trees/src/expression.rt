//! Expressions.

use crate::word::{Operator, ReadWord, Relation};
use plain_data::{Boxed, Sequence, Text};
use rdt_types::Kind;

/// Expressions in the order of the text.
pub type ExprList = Sequence<Expr>;

/// The further operands of a chain, in the order of the text.
pub type OperandList = Sequence<Operand>;

/// An expression. Its column is that of its first token, an opening parenthesis included.
#[cycle(expr)]
#[derive(Debug, Drop)]
pub struct Expr {
    pub column: u32,
    pub node: ExprNode,
}

/// What an expression is.
#[cycle(expr)]
#[derive(Debug, Drop)]
pub enum ExprNode {
    Number(i64),
    Text(Text),
    Bool(bool),
    Name(Text),
    /// The elements between brackets.
    Texts(ExprList),
    Len(Boxed<Expr>),
    Str(Boxed<Expr>),
    Negative(Boxed<Expr>),
    Not(Boxed<Expr>),
    Compare(Boxed<Expr>, Relation, Boxed<Expr>),
    /// A first operand and those after it, all joined by operators of one rank.
    Chain(Boxed<Expr>, OperandList),
    /// The kind, the key, what is asked, and its arguments.
    Read(Kind, Boxed<Expr>, ReadWord, ExprList),
}

/// A further operand of a chain, with the operator before it.
#[cycle(expr)]
#[derive(Debug, Drop)]
pub struct Operand {
    pub operator: Operator,
    pub value: Expr,
}
