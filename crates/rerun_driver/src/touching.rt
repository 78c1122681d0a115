//! Whether changes touch what was observed.

ghost use Rattle.std.specs.Bool.{OnTrue};
ghost use Rattle.std.specs.Prelude.{◌≡◌};
ghost use Rattle.rerun_driver.specs.Watches as spec;

use conflict_table::{Steps, clash};
use rdt_types::{Address, DeltaMap};
use std::marker::Brand;
use std::sync::ledger::{Blank, Ledger};
use txn_lang::Seen;

/// Whether the change at the observed address clashes with the observation.
fn clashes<L: Ledger>(changes: &DeltaMap, seen: &Seen, steps: &mut Steps<L>) -> bool
    ensures { result ≡ spec.clashes changes.now seen.now }
{
    match changes.get(&seen.address) {
        Some(delta) => clash(&seen.obs, delta, steps),
        None => false,
    }
}

/// Whether one of the observations clashes with a change at its address.
fn touches_by<L: Ledger>(blank: Blank, changes: &DeltaMap, observations: &[Seen]) -> bool
    requires name { blank.name ≡ L.name }
    requires parts { blank.parts ≡ L.parts }
    requires one { blank.parts ≡ 1 }
    ensures { result ≡ spec.touches changes.now observations.now }
{
    let mut steps = Steps::<L>::new(blank);
    for seen in observations {
        if clashes(changes, seen, &mut steps) {
            return true;
        }
    }
    false
}

/// Whether changes touch what was observed. It is never refused for want of memory.
pub(crate) fn touches(changes: &DeltaMap, observations: &[Seen]) -> bool
    ensures { result ≡ spec.touches changes.now observations.now }
{
    touches_by::<Brand>(Blank::new(1), changes, observations)
}

/// Whether something was observed at an address.
pub(crate) fn is_observed_by(address: &Address, observations: &[Seen]) -> bool
    ensures { result ≡ spec.is_observed_by address.now observations.now }
{
    observations
        .iter()
        .any(|seen| address.cmp(&seen.address).is_eq())
}

/// Whether observations are at the addresses of earlier ones, in their order.
pub(crate) fn are_where(observations: &[Seen], before: &[Seen]) -> bool
    ensures { OnTrue result (spec.AreWhere observations.now before.now) }
{
    if observations.len() != before.len() {
        return false;
    }
    for place in 0..before.len() {
        if observations[place]
            .address
            .cmp(&before[place].address)
            .is_ne()
        {
            return false;
        }
    }
    true
}
