//! The language of transactions as trees: what a body is once it has been read. The whole language stands here, also
//! what no reader reads yet. It stands on `rdt_types` for the kinds; the grammar stands on it, and so does all that runs.
//!
//! A column counts the bytes of the body's text from 1. Parentheses leave no node of their own.
#![tactic(auto)]

mod expression;
mod statement;
mod word;

pub use expression::{Expr, ExprList, ExprNode, Operand, OperandList};
pub use statement::{Body, Stmt, StmtList, StmtNode};
pub use word::{Operator, ReadWord, Relation, WriteWord};
