//! What statements do that hold no block.

ghost use Rattle.std.specs.Prelude.{◌≡◌, false, OnErr};
ghost use Rattle.txn_lang.specs.Rules as rules;
ghost use Rattle.txn_eval.specs.code.Answers.{Answers, Keeps, Leaves};
ghost use Rattle.txn_eval.specs.code.Forms.{stmt_on, emit_here, fail_here, write_value_here, written_here};
ghost use Rattle.txn_eval.specs.code.Pauses.{holds_block};

use crate::charging::{carry, charge, emit_size, write_size};
use crate::environment::Environment;
use crate::expression::{key_of, value_of, values_of};
use crate::here::{Here, Known};
use crate::items::{into_text, write_of};
use crate::kept::Kept;
use rdt_types::{Address, Item, Kind};
use txn_lang::{Progress, Stop};
use txn_trees::{Expr, Stmt, StmtNode, WriteWord};

/// Emits an item.
#[tactic(auto, using(crate::proofs::TooMuch::too_much))]
fn emit(run: &mut Progress<Kept>, item: Item) -> Result<(), Stop>
    ensures { Answers result run.new (rules.emit_item item run.old) }
{
    match emit_size(&item) {
        Some(size) => {
            carry(run, size)?;
            run.emitted.push(item)?;
            Ok(())
        }
        None => Err(Stop::Big),
    }
}

/// Writes what a word says.
#[tactic(auto, using(crate::proofs::TooMuch::too_much))]
fn write(
    here: &Here<'_>,
    run: &mut Progress<Kept>,
    address: Address,
    word: WriteWord,
    arguments: &[Item],
) -> Result<(), Stop>
    ensures { Answers result run.new (written_here here.now address word arguments.now run.old) }
{
    let Some(size) = write_size(&address.key, arguments) else {
        return Err(Stop::Big);
    };
    carry(run, size)?;
    match write_of(here.alloc, address.kind, word, arguments)? {
        Some(op) => {
            run.memory.buffer.put_at(here.alloc, address, &op)?;
            Ok(())
        }
        None => Ok(()),
    }
}

/// Where a statement writes.
#[derive(Clone, Copy)]
struct Target<'a> {
    kind: Kind,
    /// What gives the key.
    key: &'a Expr,
}

/// Writes what a word says, at the key that an expression gives, with what its arguments give. A single one takes no list.
fn write_value(
    here: &Here<'_>,
    run: &mut Progress<Kept>,
    target: &Target<'_>,
    word: WriteWord,
    exprs: &[Expr],
) -> Result<(), Stop>
    ensures { Keeps result here.now run.new (write_value_here here.now target.now.kind target.now.key.now word exprs.now run.old) }
{
    let key = key_of(here, run, target.key)?;
    let address = Address {
        kind: target.kind,
        key: into_text(here.alloc, key),
    };
    match exprs {
        [only] => {
            let items = [value_of(here, run, only)?];
            write(here, run, address, word, &items)
        }
        _ => {
            let items = values_of(here, run, exprs)?;
            write(here, run, address, word, items.as_slice())
        }
    }
}

/// Emits what an expression gives.
fn emit_value(here: &Here<'_>, run: &mut Progress<Kept>, expr: &Expr) -> Result<(), Stop>
    ensures { Keeps result here.now run.new (emit_here here.now expr.now run.old) }
{
    let item = value_of(here, run, expr)?;
    emit(run, item)
}

/// Fails with what an expression gives.
fn fail_value(here: &Here<'_>, run: &mut Progress<Kept>, expr: &Expr) -> Result<(), Stop>
    ensures { Keeps result here.now run.new (fail_here here.now expr.now run.old) }
{
    let item = value_of(here, run, expr)?;
    Err(Stop::Fail(into_text(here.alloc, item)))
}

/// A statement that holds no block. Where it stops it binds no name.
pub(crate) fn simple(
    known: &Known<'_>,
    names: &mut Environment,
    run: &mut Progress<Kept>,
    stmt: &Stmt,
) -> Result<(), Stop>
    requires { holds_block stmt.now ≡ false }
    ensures rule { Leaves result names.new run.new (stmt_on known.now stmt.now names.old run.old) }
    ensures err { OnErr result (names.new ≡ names.old) }
{
    charge(run, 1)?;
    let here = Here {
        alloc: known.alloc,
        snaps: known.snaps,
        names,
    };
    match &stmt.node {
        StmtNode::Let(name, expr) => {
            let item = value_of(&here, run, expr)?;
            names.bind(name, item)?;
            Ok(())
        }
        StmtNode::Emit(expr) => emit_value(&here, run, expr),
        StmtNode::Fail(expr) => fail_value(&here, run, expr),
        StmtNode::Write(kind, key, word, arguments) => {
            let target = Target { kind: *kind, key };
            write_value(&here, run, &target, *word, arguments.as_slice())
        }
        StmtNode::If(..) | StmtNode::For(..) => unreachable!(),
    }
}
