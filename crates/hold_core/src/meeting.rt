//! Whether a delta disturbs what was observed.

ghost use Rattle.std.specs.Prelude.{◌≡◌, ◌+◌, ◌≤◌};
ghost use Rattle.std.specs.List.{list_any};
ghost use Rattle.std.specs.Option.{option_copied};
ghost use Rattle.journal_core.specs.Holds as holds;
ghost use Rattle.hold_core.specs.Books.{disturbs_alone, met_alone};
ghost use Rattle.hold_core.specs.code.Index as spec;
ghost use Rattle.hold_core.specs.code.Index.{IsIndex, Rises, IsReached, is_hit_at, met_among};

use crate::placing::order_at;
use conflict_table::{Steps, clash};
use rdt_types::{Address, Delta};
use std::sync::ledger::Ledger;
use txn_lang::Seen;

/// What was observed at a place, where that is at the address.
fn seen_at<'a>(observations: &'a [Seen], address: &Address, place: usize) -> Option<&'a Seen>
    ensures { option_copied result ≡ spec.seen_at observations.now address.now place }
{
    if order_at(observations, address, place).is_eq() {
        observations.get(place)
    } else {
        None
    }
}

/// Whether a delta disturbs what was observed at these places, of which the first is at its address, or none is. It looks no
/// further than the last that is.
fn is_hit_from<L: Ledger>(
    observations: &[Seen],
    places: &[usize],
    address: &Address,
    delta: &Delta,
    steps: &mut Steps<L>,
) -> bool
    requires rises { Rises observations.now address.now places.now }
    requires reached { IsReached observations.now address.now places.now }
    ensures hit { result ≡ list_any (is_hit_at observations.now (address.now, delta.now)) places.now }
    ensures steps { steps.new ≤ steps.old + met_among observations.now address.now places.now }
{
    for place in places {
        let Some(seen) = seen_at(observations, address, *place) else {
            return false;
        };
        if clash(&seen.obs, delta, steps) {
            return true;
        }
    }
    false
}

/// The first place that isn't before an address, found by halving.
fn first_at(observations: &[Seen], places: &[usize], address: &Address) -> usize
    requires { Rises observations.now address.now places.now }
    ensures { spec.IsFirstAt observations.now address.now places.now result }
{
    places.partition_point(|place| order_at(observations, address, *place).is_lt())
}

/// Whether a delta disturbs what was observed. Only what was observed at its address is looked at.
pub(crate) fn is_hit<L: Ledger>(
    observations: &[Seen],
    places: &[usize],
    address: &Address,
    delta: &Delta,
    steps: &mut Steps<L>,
) -> bool
    requires { IsIndex observations.now places.now }
    ensures disturbs { result ≡ disturbs_alone address.now delta.now observations.now }
    ensures steps { steps.new ≤ steps.old + met_alone address.now delta.now observations.now }
{
    let from = first_at(observations, places, address);
    is_hit_from(observations, &places[from..], address, delta, steps)
}
