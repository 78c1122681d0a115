//! Where the least clash of observations and changes is.

ghost use Rattle.std.specs.Prelude.{◌≡◌, ◌+◌, ◌*◌, ◌≤◌, length};
ghost use Rattle.change_feed.specs.Lists.{listed};
ghost use Rattle.abort_witness.specs.Pairs as pairs;

use crate::witness::{Based, Found};
use change_feed::{Change, Changes, Tail};
use conflict_table::{Steps, clash};
use std::sync::ledger::Ledger;

/// Whether a change is past the base of an observation, and at its address.
fn meets(based: &Based, change: &Change) -> bool
    ensures { result ≡ pairs.meets based.now change.now }
{
    based.base < change.number && based.address.cmp(&change.address).is_eq()
}

/// The number of the first change that clashes with an observation. It makes a step at most for each change that is past
/// its base and at its address, and is never refused for want of memory.
pub fn first_clash<L: Ledger>(
    based: &Based,
    changes: &[Change],
    steps: &mut Steps<L>,
) -> Option<u64>
    ensures first { result ≡ pairs.first_clash based.now changes.now }
    ensures steps { steps.new ≤ steps.old + pairs.count_met based.now changes.now }
    ensures few { steps.new ≤ steps.old + length changes.now }
{
    for change in changes {
        if meets(based, change) && clash(&based.obs, &change.delta, steps) {
            return Some(change.number);
        }
    }
    None
}

/// The same of changes that are lent in pieces: it stops at the first piece that answers.
pub fn first_clash_in<L: Ledger>(
    based: &Based,
    mut changes: Changes<'_>,
    steps: &mut Steps<L>,
) -> Option<u64>
    ensures first { result ≡ pairs.first_clash based.now (listed changes.entry) }
    ensures steps { steps.new ≤ steps.old + pairs.count_met based.now (listed changes.entry) }
    ensures few { steps.new ≤ steps.old + length (listed changes.entry) }
{
    while let Some(piece) = changes.next_piece() {
        let number = first_clash(based, piece, steps);
        if number.is_some() {
            return number;
        }
    }
    None
}

/// Of what was found before and a number at a place the one of the lesser number, and of equals the one before.
pub fn lesser(found: Option<Found>, place: u32, number: Option<u64>) -> Option<Found>
    ensures { result ≡ pairs.lesser found (pairs.found_at place number) }
{
    let Some(number) = number else {
        return found;
    };
    match found {
        Some(first) if first.number <= number => found,
        _ => Some(Found { place, number }),
    }
}

/// The least pair: the least number of a change past the base of an observation of its address with which it clashes, and
/// then the first such observation. It is never refused for want of memory.
pub fn least<L: Ledger>(based: &[Based], tail: &Tail, steps: &mut Steps<L>) -> Option<Found>
    requires places { pairs.HavePlaces based.now }
    ensures least { result ≡ pairs.least based.now tail.now.changes }
    ensures steps { steps.new ≤ steps.old + length based.now * length tail.now.changes }
{
    let mut found = None;
    for (place, based) in based.iter().enumerate() {
        let number = first_clash_in(based, tail.changes.lend(), steps);
        found = lesser(found, place as u32, number);
    }
    found
}
