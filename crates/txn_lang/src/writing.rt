//! Whether a body writes, and where first.

ghost use Rattle.std.specs.Prelude.{◌≡◌, map};
ghost use Rattle.txn_lang.specs.Writes as spec;

use txn_trees::{Stmt, StmtNode};

/// The column of the first write in some statements, if any writes.
#[cycle(writes)]
pub(crate) fn first_write(stmts: &[Stmt]) -> Option<u32>
    ensures { result ≡ spec.first_of (map spec.first_write_in stmts.now) }
{
    for stmt in stmts {
        if let Some(column) = first_write_in(stmt) {
            return Some(column);
        }
    }
    None
}

/// The column of the first write in a statement, if it writes.
#[cycle(writes)]
fn first_write_in(stmt: &Stmt) -> Option<u32>
    ensures { result ≡ spec.first_write_in stmt.now }
{
    match &stmt.node {
        StmtNode::Write(..) => Some(stmt.column),
        StmtNode::For(_, _, inner) => first_write(inner.as_slice()),
        StmtNode::If(_, then_do, else_do) => match first_write(then_do.as_slice()) {
            Some(column) => Some(column),
            None => match else_do {
                Some(else_do) => first_write(else_do.as_slice()),
                None => None,
            },
        },
        _ => None,
    }
}
