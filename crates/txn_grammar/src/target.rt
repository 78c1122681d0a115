//! What an operation of a body is on.

use rdt_types::Kind;
use txn_trees::Expr;

/// The kind and the key before an operation's dot, and the column of the kind.
#[derive(Debug, Drop)]
pub struct Target {
    pub column: u32,
    pub kind: Kind,
    pub key: Expr,
}
