//! Where a value stands: a kind and a key.

ghost use Rattle.std.specs.Prelude.{◌≡◌};
ghost use Rattle.rdt_types.specs.Printed.{word_of};

use plain_data::{ExactClone, Text};
use std::cmp::Ordering;

/// What a value is, and so which operations it has. Kinds are ordered as they stand here.
#[derive(Clone, Copy, Debug, PartialEq, Eq, PartialOrd, Ord)]
pub enum Kind {
    Bool,
    Counter,
    Text,
    Set,
    Hash,
    List,
    Peak,
}

impl Kind {
    /// The word of the kind.
    pub fn word(self) -> &'static [u8]
        ensures { result.now ≡ word_of self }
    {
        match self {
            Kind::Bool => b"bool".as_slice(),
            Kind::Counter => b"counter".as_slice(),
            Kind::Text => b"text".as_slice(),
            Kind::Set => b"set".as_slice(),
            Kind::Hash => b"hash".as_slice(),
            Kind::List => b"list".as_slice(),
            Kind::Peak => b"peak".as_slice(),
        }
    }
}

/// The place of a value. One key with two kinds makes two addresses.
#[derive(Clone, Debug, Drop, PartialEq, Eq)]
pub struct Address {
    pub kind: Kind,
    pub key: Text,
}

impl ExactClone for Address {
    ghost use Rattle.std.proofs.Common.{rules};

    ghost exact = { Prim.search rules };
}

/// By kind, and addresses of one kind by their keys' bytes.
impl Ord for Address {
    ghost use Rattle.std.proofs.Common.{rules};
    ghost use Rattle.std.specs.Cmp.{on_total, then_total};
    ghost use Rattle.std.specs.Cmp.Lexicographic.{nat_list_cmp_total};
    ghost use Rattle.std.specs.Cmp.Rules.{comparing};
    ghost use Rattle.rdt_types.specs.contracts.address.KindOrd.TheImpl.Laws as kinds;
    ghost use Rattle.rdt_types.specs.Addresses.{address_cmp};

    ghost cmp = { address_cmp };

    ghost total = { then_total (on_total (λ a. a.kind) (kinds.total-law)) (on_total (λ a. a.key) nat_list_cmp_total) };

    ghost matches_partial_cmp = { Prim.search (comparing, rules) };

    ghost matches_eq = { Prim.search (comparing, rules) };

    fn cmp(&self, other: &Address) -> Ordering {
        self.kind.cmp(&other.kind).then(self.key.cmp(&other.key))
    }
}

impl PartialOrd for Address {
    ghost use Rattle.std.proofs.Common.{rules};
    ghost use Rattle.std.specs.Cmp.{partial_order_from_own_ties};
    ghost use Rattle.std.specs.Cmp.Rules.{comparing};
    ghost use Rattle.std.specs.Ordering.{as_partial_cmp};
    ghost use Rattle.rdt_types.specs.Addresses.{address_cmp};

    ghost partial_cmp = { as_partial_cmp address_cmp };

    ghost laws = { partial_order_from_own_ties (Prim.search (comparing, rules)) (Prim.search (comparing, rules)) };

    fn partial_cmp(&self, other: &Address) -> Option<Ordering> {
        Some(self.cmp(other))
    }
}
