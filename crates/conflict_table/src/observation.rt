//! Observations.

ghost use Rattle.std.specs.Prelude.{◌≡◌};
ghost use Rattle.conflict_table.specs.Observing.{kind_observed};

use plain_data::{ExactClone, Text};
use rdt_types::Kind;

/// What a read has seen of the value at an address: its answer rests on this, and on nothing else of the value.
#[derive(Clone, Debug, Drop, PartialEq, Eq)]
pub enum Obs {
    /// The whole of a bool.
    BoolIs,
    /// The whole of a counter.
    CounterIs,
    /// The whole of a text.
    TextIs,
    /// Whether an element is in a set.
    SetHas(Text),
    /// The whole of a set.
    SetAll,
    /// What stands at a field of a hash, if anything.
    HashAt(Text),
    /// The whole of a hash.
    HashAll,
    /// The item at a place of a list, counted from 0. It is made only of places within the list.
    ListAt(u64),
    /// The whole of a list.
    ListAll,
    /// The whole of a peak, which is this number.
    PeakIs(i64),
    /// Whether a peak is above a number, with the answer.
    PeakOver(i64, bool),
}

impl ExactClone for Obs {
    ghost use Rattle.std.proofs.Common.{rules};

    ghost exact = { Prim.search rules };
}

impl Obs {
    /// The kind of the values that it is made of.
    pub fn kind(&self) -> Kind
        ensures { result ≡ kind_observed self.now }
    {
        match self {
            Obs::BoolIs => Kind::Bool,
            Obs::CounterIs => Kind::Counter,
            Obs::TextIs => Kind::Text,
            Obs::SetHas(_) | Obs::SetAll => Kind::Set,
            Obs::HashAt(_) | Obs::HashAll => Kind::Hash,
            Obs::ListAt(_) | Obs::ListAll => Kind::List,
            Obs::PeakIs(_) | Obs::PeakOver(_, _) => Kind::Peak,
        }
    }
}
