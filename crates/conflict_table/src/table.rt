//! Whether a delta clashes with an observation.

ghost use Rattle.std.specs.Prelude.{◌≡◌, ◌+◌};
ghost use Rattle.conflict_table.specs.Clashes as table;

use crate::observation::Obs;
use crate::steps::Steps;
use plain_data::{Text, TextMap};
use rdt_types::Delta;
use std::sync::ledger::Ledger;

/// Whether a delta clears.
fn clears(delta: &Delta) -> bool
    ensures { result ≡ table.clears delta.now }
{
    match delta {
        Delta::Set(d) => d.cleared(),
        Delta::Hash(d) => d.cleared(),
        Delta::List(d) => d.cleared(),
        _ => false,
    }
}

/// Whether it has a mark at an element or a field.
fn names(delta: &Delta, key: &Text) -> bool
    ensures { result ≡ table.names key.now delta.now }
{
    match delta {
        Delta::Set(d) => d.marks().contains(key),
        Delta::Hash(d) => d.marks().contains(key),
        _ => false,
    }
}

/// Whether a map has a key at all.
fn has_some<V>(map: &TextMap<V>) -> bool
    ensures { result ≡ table.has_some map.now }
{
    !map.is_empty()
}

/// Whether it has a mark at all.
fn names_some(delta: &Delta) -> bool
    ensures { result ≡ table.names_some delta.now }
{
    match delta {
        Delta::Set(d) => has_some(d.marks()),
        Delta::Hash(d) => has_some(d.marks()),
        _ => false,
    }
}

/// Whether it takes items out.
fn removes(delta: &Delta) -> bool
    ensures { result ≡ table.removes delta.now }
{
    match delta {
        Delta::List(d) => has_some(d.removed()),
        _ => false,
    }
}

/// Whether it pushes items.
fn pushes(delta: &Delta) -> bool
    ensures { result ≡ table.pushes delta.now }
{
    match delta {
        Delta::List(d) => !d.pushed().is_empty(),
        _ => false,
    }
}

/// Whether it raises a peak above a number.
fn raises_above(number: i64, delta: &Delta) -> bool
    ensures { result ≡ table.raises_above number delta.now }
{
    match delta {
        Delta::Raise(n) => number < *n,
        _ => false,
    }
}

/// Whether a delta clashes with an observation of its kind: where it doesn't, the answer is the same after the delta as
/// before. It makes one step, and is never refused for want of memory.
pub fn clash<L: Ledger>(obs: &Obs, delta: &Delta, steps: &mut Steps<L>) -> bool
    ensures table { result ≡ table.clash obs.now delta.now }
    ensures one_step { steps.new ≡ steps.old + 1 }
{
    steps.count();
    match obs {
        Obs::BoolIs | Obs::CounterIs | Obs::TextIs => true,
        Obs::SetHas(key) | Obs::HashAt(key) => clears(delta) || names(delta, key),
        Obs::SetAll | Obs::HashAll => clears(delta) || names_some(delta),
        Obs::ListAt(_) => clears(delta) || removes(delta),
        Obs::ListAll => clears(delta) || removes(delta) || pushes(delta),
        Obs::PeakIs(n) => raises_above(*n, delta),
        Obs::PeakOver(n, is_over) => !*is_over && raises_above(*n, delta),
    }
}
