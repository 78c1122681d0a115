//! The operations that write a value.

ghost use Rattle.std.specs.Prelude.{◌≡◌};
ghost use Rattle.rdt_types.specs.Values as spec;

use crate::address::Kind;
use plain_data::{ExactClone, Text};

/// One write at an address. Its variant begins with its kind or names it.
#[derive(Clone, Debug, Drop, PartialEq, Eq)]
pub enum WriteOp {
    PutBool(bool),
    PutCounter(i64),
    /// Adds, and wraps to 64 bits.
    AddCounter(i64),
    PutText(Text),
    SetAdd(Text),
    SetRemove(Text),
    SetClear,
    /// Puts a text at a field.
    HashPut(Text, Text),
    HashRemove(Text),
    HashClear,
    /// Adds an item at the end.
    ListPush(Text),
    /// Takes out every equal item.
    ListRemove(Text),
    ListClear,
    /// Raises a peak to a number, where it isn't as high.
    Raise(i64),
}

impl ExactClone for WriteOp {
    ghost use Rattle.std.proofs.Common.{rules};

    ghost exact = { Prim.search rules };
}

impl WriteOp {
    /// The kind of the values that it writes.
    pub fn kind(&self) -> Kind
        ensures { result ≡ spec.kind_written self.now }
    {
        match self {
            WriteOp::PutBool(_) => Kind::Bool,
            WriteOp::PutCounter(_) | WriteOp::AddCounter(_) => Kind::Counter,
            WriteOp::PutText(_) => Kind::Text,
            WriteOp::SetAdd(_) | WriteOp::SetRemove(_) | WriteOp::SetClear => Kind::Set,
            WriteOp::HashPut(_, _) | WriteOp::HashRemove(_) | WriteOp::HashClear => Kind::Hash,
            WriteOp::ListPush(_) | WriteOp::ListRemove(_) | WriteOp::ListClear => Kind::List,
            WriteOp::Raise(_) => Kind::Peak,
        }
    }
}
