//! The checker: which bodies are well typed, and which write.

ghost use Rattle.std.specs.Prelude.{◌≡◌, ◌≤◌, ℕ, map, take, length, IsTrue, None, Some, Err, IfOk, OnOk, MatchResult};
ghost use Rattle.plain_data.specs.declared.or_no_memory.OrNoMemory.TheVariants.{Cause};
ghost use Rattle.txn_grammar.specs.Parsed.{parsed};
ghost use Rattle.txn_lang.specs.Typing as spec;
ghost use Rattle.txn_lang.specs.Typing.{judge as judge_of, IsTyped};
ghost use Rattle.txn_lang.specs.Writes.{first_write as first_write_of};
ghost use Rattle.txn_lang.specs.code.Checking.{caused, told, refuse_write, Leaves, WritesAt};

use crate::checked::Checked;
use crate::environment::Environment;
use crate::item_type::Type;
use crate::judging::{expect, judge_write, type_of};
use crate::writing::first_write;
use plain_data::{OrNoMemory, Text};
use std::alloc::{AllocError, Global};
use txn_trees::{Body, Stmt, StmtNode};

/// Why a body isn't accepted.
#[derive(Clone, Copy, Debug, PartialEq, Eq)]
pub enum CheckError {
    /// A rule of typing fails, first at this column.
    BadType(u32),
    /// It may only read, and writes, first at this column.
    Writes(u32),
    NoMemory,
}

/// What the code answers where something is judged: a column, or want of memory.
type Fault = OrNoMemory<u32>;

/// What was judged without memory, with a column as the cause.
fn judged<T>(found: Result<T, u32>) -> Result<T, Fault>
    ensures { result ≡ caused found }
{
    match found {
        Ok(value) => Ok(value),
        Err(column) => Err(OrNoMemory::Cause(column)),
    }
}

/// Judges statements in order.
#[cycle(judged)]
fn in_order(names: &mut Environment<Type>, stmts: &[Stmt]) -> Result<(), Fault>
    ensures { Leaves result names.new (spec.in_order (map spec.names_after stmts.now) names.old) }
{
    for stmt in stmts {
        step(names, stmt)?;
    }
    Ok(())
}

/// Judges statements in a block, which binds no name for what is behind it.
#[cycle(judged)]
fn block(names: &mut Environment<Type>, stmts: &[Stmt]) -> Result<(), Fault>
    ensures { Leaves result names.new (spec.block (map spec.names_after stmts.now) names.old) }
{
    let count = names.len();
    in_order(names, stmts)?;
    names.truncate(count)?;
    Ok(())
}

/// Judges the statements inside a loop, where its name is bound to a text.
#[cycle(judged)]
fn turn(names: &mut Environment<Type>, name: &Text, stmts: &[Stmt]) -> Result<(), Fault>
    ensures { Leaves result names.new (spec.turn name.now (map spec.names_after stmts.now) names.old) }
{
    let count = names.len();
    names.bind(name, Type::Text)?;
    in_order(names, stmts)?;
    names.truncate(count)?;
    Ok(())
}

/// Judges a statement.
#[cycle(judged)]
fn step(names: &mut Environment<Type>, stmt: &Stmt) -> Result<(), Fault>
    ensures { Leaves result names.new (spec.names_after stmt.now names.old) }
{
    match &stmt.node {
        StmtNode::Let(name, expr) => {
            let t = judged(type_of(names, expr))?;
            names.bind(name, t)?;
            Ok(())
        }
        StmtNode::Emit(expr) => {
            let _ = judged(type_of(names, expr))?;
            Ok(())
        }
        StmtNode::Fail(expr) => {
            let _ = judged(expect(names, Type::Text, expr))?;
            Ok(())
        }
        StmtNode::If(expr, then_do, else_do) => {
            let _ = judged(expect(names, Type::Bool, expr))?;
            block(names, then_do.as_slice())?;
            match else_do {
                Some(else_do) => block(names, else_do.as_slice()),
                None => Ok(()),
            }
        }
        StmtNode::For(name, expr, inner) => {
            let _ = judged(expect(names, Type::Texts, expr))?;
            turn(names, name, inner.as_slice())
        }
        StmtNode::Write(kind, key, _, arguments) => {
            judged(judge_write(names, *kind, key, arguments.as_slice()))
        }
    }
}

/// Judges a body's statements, where no name is bound before.
fn judge(alloc: Global, body: &Body) -> Result<(), Fault>
    ensures { MatchResult result (λ _. IsTyped body.now) (λ fault. (column : ℕ) → fault ≡ Cause column → spec.judge body.now ≡ Err column) }
{
    let mut names = Environment::new(alloc);
    in_order(&mut names, body.stmts.as_slice())
}

/// Why a body isn't well typed.
fn told(fault: Fault) -> CheckError
    ensures { result ≡ told fault }
{
    match fault {
        OrNoMemory::Cause(column) => CheckError::BadType(column),
        OrNoMemory::NoMemory => CheckError::NoMemory,
    }
}

/// Refuses a body that may only read, at its first write.
fn refuse_write(body: &Body, read_only: bool) -> Result<(), CheckError>
    ensures { result ≡ refuse_write read_only (first_write_of body.now) }
{
    if !read_only {
        return Ok(());
    }
    match first_write(body.stmts.as_slice()) {
        Some(column) => Err(CheckError::Writes(column)),
        None => Ok(()),
    }
}

/// Takes a body that was read from its source as one that may run, where the rules of typing hold of it and, if it may
/// only read, it has no write.
pub fn check(
    alloc: Global,
    body: Body,
    source: Text,
    read_only: bool,
) -> Result<Checked, CheckError>
    requires { parsed source ≡ Some body }
    ensures body { IfOk result (λ checked. checked.body ≡ body) }
    ensures source { IfOk result (λ checked. checked.source ≡ source) }
    ensures read_only { IfOk result (λ checked. checked.read_only ≡ read_only) }

    // It is accepted only where the rules hold, and where it may write or has no write.
    ensures typed { IfOk result (λ checked. IsTyped body) }
    ensures writes_none { IfOk result (λ checked. IsTrue read_only → first_write_of body ≡ None) }

    // A rule fails first at the column.
    ensures bad_type { (column : ℕ) → result ≡ Err (CheckError.BadType column) → judge_of body ≡ Err column }

    // The rules hold, it may only read, and its first write stands at the column.
    ensures writes { (column : ℕ) → result ≡ Err (CheckError.Writes column) → WritesAt body read_only column }
{
    match judge(alloc, &body) {
        Ok(()) => {}
        Err(fault) => return Err(told(fault)),
    }
    refuse_write(&body, read_only)?;
    Ok(Checked {
        body,
        source,
        read_only,
    })
}
