//! Prints statements and bodies.

ghost use Rattle.std.specs.Prelude.{◌≡◌, map, IfOk, OnOk};
ghost use Rattle.std.specs.List.{flat_map};
ghost use Rattle.txn_print.specs.Pieces.{written};
ghost use Rattle.txn_print.specs.Canonical as spec;

use crate::expression::{push_expr, push_request, push_target};
use crate::line::Line;
use crate::place::Place;
use crate::spelling::write_name;
use plain_data::Text;
use std::alloc::{AllocError, Global};
use txn_grammar::Symbol;
use txn_trees::{Body, Expr, Stmt, StmtNode};

/// Prints an expression and the end of its statement.
fn push_last(alloc: Global, line: &mut Line, e: &Expr) -> Result<(), AllocError>
    ensures { OnOk result (line.new ≡ written line.old (spec.ended (spec.expression e.now))) }
{
    push_expr(alloc, line, e, Place::Disjunction)?;
    line.closing(Symbol::Semicolon)
}

/// Prints a statement.
#[cycle(statement)]
fn push_stmt(alloc: Global, line: &mut Line, stmt: &Stmt) -> Result<(), AllocError>
    ensures { OnOk result (line.new ≡ written line.old (spec.shown_stmt stmt.now)) }
{
    match &stmt.node {
        StmtNode::Let(name, value) => {
            line.word(Symbol::Let)?;
            line.name(name.as_slice())?;
            line.word(Symbol::Assign)?;
            push_last(alloc, line, value)
        }
        StmtNode::Emit(value) => {
            line.word(Symbol::Emit)?;
            push_last(alloc, line, value)
        }
        StmtNode::Fail(reason) => {
            line.word(Symbol::Fail)?;
            push_last(alloc, line, reason)
        }
        StmtNode::If(condition, holds, otherwise) => {
            line.word(Symbol::If)?;
            push_expr(alloc, line, condition, Place::Disjunction)?;
            push_block(alloc, line, holds.as_slice())?;
            match otherwise {
                Some(stmts) => {
                    line.word(Symbol::Else)?;
                    push_block(alloc, line, stmts.as_slice())
                }
                None => Ok(()),
            }
        }
        StmtNode::For(name, texts, each) => {
            line.word(Symbol::For)?;
            line.name(name.as_slice())?;
            line.word(Symbol::In)?;
            push_expr(alloc, line, texts, Place::Disjunction)?;
            push_block(alloc, line, each.as_slice())
        }
        StmtNode::Write(kind, key, word, arguments) => {
            push_target(alloc, line, *kind, key)?;
            push_request(alloc, line, write_name(*word), arguments.as_slice())?;
            line.closing(Symbol::Semicolon)
        }
    }
}

/// Prints statements in braces.
#[cycle(statement)]
fn push_block(alloc: Global, line: &mut Line, stmts: &[Stmt]) -> Result<(), AllocError>
    ensures { OnOk result (line.new ≡ written line.old (spec.block (map spec.shown_stmt stmts.now))) }
{
    line.word(Symbol::OpenBrace)?;
    for stmt in stmts {
        push_stmt(alloc, line, stmt)?;
    }
    line.word(Symbol::CloseBrace)
}

/// Prints the statements of a body.
fn push_body(alloc: Global, line: &mut Line, stmts: &[Stmt]) -> Result<(), AllocError>
    ensures { OnOk result (line.new ≡ written line.old (flat_map spec.shown_stmt stmts.now)) }
{
    for stmt in stmts {
        push_stmt(alloc, line, stmt)?;
    }
    Ok(())
}

/// Prints a body in one line: the canonical text, which has parentheses exactly where the grammar needs them.
pub fn print(alloc: Global, body: &Body) -> Result<Text, AllocError>
    ensures { IfOk result (λ text. text ≡ spec.canonical body.now) }
{
    let mut line = Line::new(alloc);
    push_body(alloc, &mut line, body.stmts.as_slice())?;
    Ok(line.text)
}
