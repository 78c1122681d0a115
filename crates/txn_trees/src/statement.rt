//! Statements, and bodies, which are lists of them.

use crate::expression::{Expr, ExprList};
use crate::word::WriteWord;
use plain_data::{Sequence, Text};
use rdt_types::Kind;

/// Statements in the order of the text.
pub type StmtList = Sequence<Stmt>;

/// The program of a transaction.
#[derive(Debug, Drop)]
pub struct Body {
    pub stmts: StmtList,
}

/// A statement. Its column is that of its first token.
#[cycle(stmt)]
#[derive(Debug, Drop)]
pub struct Stmt {
    pub column: u32,
    pub node: StmtNode,
}

/// What a statement is.
#[cycle(stmt)]
#[derive(Debug, Drop)]
pub enum StmtNode {
    Let(Text, Expr),
    Emit(Expr),
    Fail(Expr),
    /// The condition, and what runs where it holds and where it doesn't. An empty `else` is an empty list.
    If(Expr, StmtList, Option<StmtList>),
    /// The name, the texts that it goes over, and what runs for each.
    For(Text, Expr, StmtList),
    /// The kind, the key, what is done, and its arguments.
    Write(Kind, Expr, WriteWord, ExprList),
}
