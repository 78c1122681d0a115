//! The values at addresses.

ghost use Rattle.std.specs.Prelude.{◌≡◌};
ghost use Rattle.rdt_types.specs.Values as spec;

use crate::address::Kind;
use plain_data::{ExactClone, Sequence, Text, TextMap, TextSet};
use std::alloc::Global;

/// Texts in the order in which they were pushed.
pub type TextList = Sequence<Text>;

/// The value at an address. Its variant is its kind.
#[derive(Clone, Debug, Drop, PartialEq, Eq)]
pub enum Value {
    Bool(bool),
    Counter(i64),
    Text(Text),
    Set(TextSet),
    Hash(TextMap<Text>),
    List(TextList),
    /// A number that only rises.
    Peak(i64),
}

impl ExactClone for Value {
    ghost use Rattle.std.proofs.Common.{rules};

    ghost exact = { Prim.search rules };
}

impl Value {
    /// The kind of the value.
    pub fn kind(&self) -> Kind
        ensures { result ≡ spec.kind_of self.now }
    {
        match self {
            Value::Bool(_) => Kind::Bool,
            Value::Counter(_) => Kind::Counter,
            Value::Text(_) => Kind::Text,
            Value::Set(_) => Kind::Set,
            Value::Hash(_) => Kind::Hash,
            Value::List(_) => Kind::List,
            Value::Peak(_) => Kind::Peak,
        }
    }
}

/// The value of an address that was never written. It is never refused for want of memory.
pub fn default_value(alloc: Global, kind: Kind) -> Value
    ensures { result ≡ spec.default_of kind }
{
    match kind {
        Kind::Bool => Value::Bool(false),
        Kind::Counter => Value::Counter(0),
        Kind::Text => Value::Text(Text::new(alloc)),
        Kind::Set => Value::Set(TextSet::new(alloc)),
        Kind::Hash => Value::Hash(TextMap::new(alloc)),
        Kind::List => Value::List(TextList::new(alloc)),
        Kind::Peak => Value::Peak(0),
    }
}
