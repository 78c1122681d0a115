//! A live hold with the marks of what it observed.

ghost use Rattle.std.specs.Prelude.{◌≡◌, ◌+◌, ◌≤◌};
ghost use Rattle.std.specs.Map.{keys_of};
ghost use Rattle.std.specs.List.Sorted.{IsStrictlySortedBy};
ghost use Rattle.rdt_types.specs.Addresses.{address_cmp};
ghost use Rattle.journal_core.specs.Holds as spec;
ghost use Rattle.hold_core.specs.Books.{disturbs_alone, met_alone, met_in};

use crate::indexed::IndexedSeen;
use crate::marks::{MARKS, is_marked, marks_of};
use conflict_table::Steps;
use rdt_types::{Address, Delta, DeltaMap};
use std::marker::Model;
use std::sync::ledger::Ledger;

/// A live hold. What it observed is looked at only at addresses that are written and marked.
#[derive(Drop)]
pub(crate) struct Watched {
    client: u32,
    number: u64,
    seen: IndexedSeen,
    marks: [bool; MARKS],
}

impl Model for Watched {
    ghost use Rattle.journal_core.specs.declared.hold.Hold.{Hold};
    ghost use Rattle.journal_core.specs.contracts.hold.Hold as plain;
    ghost use Rattle.hold_core.specs.code.Marks.{AreMarked};

    ghost Value = { Hold };

    ghost coded = { plain.the_row.coded };

    ghost view = { λ w. record { client = w.client; number = w.number; observations = w.seen } };

    ghost invariant = { λ w. AreMarked w.marks w.seen };
}

impl Watched {
    /// A hold that begins.
    pub(crate) fn new(client: u32, number: u64, seen: IndexedSeen) -> Watched
        ensures { result ≡ record { client = client; number = number; observations = seen } }
    {
        let marks = marks_of(seen.as_slice());
        Watched {
            client,
            number,
            seen,
            marks,
        }
    }

    /// Whose it is.
    pub(crate) fn client(&self) -> u32
        ensures { result ≡ self.now.client }
    {
        self.client
    }

    /// Its number.
    pub(crate) fn number(&self) -> u64
        ensures { result ≡ self.now.number }
    {
        self.number
    }

    /// Whether a delta disturbs it. Where its address isn't marked, nothing that it observed is looked at.
    fn is_hit<L: Ledger>(&self, address: &Address, delta: &Delta, steps: &mut Steps<L>) -> bool
        ensures disturbs { result ≡ disturbs_alone address.now delta.now self.now.observations }
        ensures steps { steps.new ≤ steps.old + met_alone address.now delta.now self.now.observations }
    {
        is_marked(&self.marks, address) && self.seen.is_hit(address, delta, steps)
    }

    /// Whether deltas disturb it.
    pub(crate) fn is_disturbed<L: Ledger>(&self, deltas: &DeltaMap, steps: &mut Steps<L>) -> bool
        ensures disturbs { result ≡ spec.disturbs_some deltas.now self.now.observations }
        ensures steps { steps.new ≤ steps.old + met_in deltas.now self.now.observations }
    {
        is_hit_by_some(self, deltas.as_slice(), steps)
    }
}

/// Whether deltas of rising addresses disturb a hold.
fn is_hit_by_some<L: Ledger>(
    hold: &Watched,
    deltas: &[(Address, Delta)],
    steps: &mut Steps<L>,
) -> bool
    requires { IsStrictlySortedBy address_cmp (keys_of deltas.now) }
    ensures disturbs { result ≡ spec.disturbs_some deltas.now hold.now.observations }
    ensures steps { steps.new ≤ steps.old + met_in deltas.now hold.now.observations }
{
    for (address, delta) in deltas {
        if hold.is_hit(address, delta, steps) {
            return true;
        }
    }
    false
}
