//! What a body that ran comes to.

use crate::value::TextList;
use plain_data::{ExactClone, Sequence, Text};

/// A value that a body emits.
#[derive(Clone, Debug, Drop, PartialEq, Eq)]
pub enum Item {
    Int(i64),
    Bool(bool),
    Text(Text),
    Texts(TextList),
}

impl ExactClone for Item {
    ghost use Rattle.std.proofs.Common.{rules};

    ghost exact = { Prim.search rules };
}

/// Values in the order in which they were emitted.
pub type ItemList = Sequence<Item>;

/// How a body ended.
#[derive(Clone, Debug, Drop, PartialEq, Eq)]
pub enum Outcome {
    /// It ran to its end, and emitted these values.
    Ok(ItemList),
    /// It failed, for this reason.
    Fail(Text),
    /// It would have gone on for too long.
    Spent,
    /// It would have made or written too much.
    Big,
}

impl ExactClone for Outcome {
    ghost use Rattle.std.proofs.Common.{rules};

    ghost exact = { Prim.search rules };
}
