//! Which reads the own delta decides, and what the others observe.

ghost use Rattle.std.specs.Prelude.{◌≡◌, length, IfOk};
ghost use Rattle.std.specs.Option.{option_copied};
ghost use Rattle.rdt_types.specs.Values as values;
ghost use Rattle.conflict_table.specs.Clashes as clashes;
ghost use Rattle.conflict_table.specs.Composed as composed;
ghost use Rattle.conflict_table.specs.Reads as reads;

use conflict_table::{Obs, ReadOp, is_over};
use plain_data::Text;
use rdt_types::{Delta, Value};
use std::alloc::AllocError;

/// Whether a whole value is put.
fn puts(own: Option<&Delta>) -> bool
    ensures { result ≡ composed.if_any composed.puts (option_copied own.entry) }
{
    match own {
        Some(Delta::PutBool(_) | Delta::PutCounter(_) | Delta::PutText(_)) => true,
        _ => false,
    }
}

/// Whether all is cleared.
fn clears(own: Option<&Delta>) -> bool
    ensures { result ≡ composed.if_any clashes.clears (option_copied own.entry) }
{
    match own {
        Some(Delta::Set(d)) => d.cleared(),
        Some(Delta::Hash(d)) => d.cleared(),
        Some(Delta::List(d)) => d.cleared(),
        _ => false,
    }
}

/// Whether all is cleared, or an element or field is marked.
fn settles(own: Option<&Delta>, key: &Text) -> bool
    ensures { result ≡ composed.if_any (composed.settles key.now) (option_copied own.entry) }
{
    match own {
        Some(Delta::Set(d)) => d.cleared() || d.marks().contains(key),
        Some(Delta::Hash(d)) => d.cleared() || d.marks().contains(key),
        Some(Delta::List(d)) => d.cleared(),
        _ => false,
    }
}

/// Whether items are taken out of a list.
fn removes(own: Option<&Delta>) -> bool
    ensures { result ≡ composed.if_any clashes.removes (option_copied own.entry) }
{
    match own {
        Some(Delta::List(d)) => !d.removed().is_empty(),
        _ => false,
    }
}

/// Whether a peak is raised above a number.
fn raises_above(own: Option<&Delta>, n: i64) -> bool
    ensures { result ≡ composed.if_any (clashes.raises_above n) (option_copied own.entry) }
{
    match own {
        Some(Delta::Raise(m)) => n < *m,
        _ => false,
    }
}

/// Whether the own delta decides a read.
pub(crate) fn is_decided(read: &ReadOp, own: Option<&Delta>) -> bool
    ensures { result ≡ composed.is_decided_by read.now (option_copied own.entry) }
{
    match read {
        ReadOp::Get => puts(own),
        ReadOp::SetHas(key) | ReadOp::HashHas(key) | ReadOp::HashGet(key) => settles(own, key),
        ReadOp::SetAll | ReadOp::HashFields | ReadOp::ListAll => clears(own),
        ReadOp::ListAt(place) => *place < 0 || clears(own),
        ReadOp::PeakOver(n) => raises_above(own, *n),
    }
}

/// The whole of a bool, a counter, a text or a peak, as it is observed.
fn whole_observed(value: &Value) -> Obs
    ensures { result ≡ reads.whole_observed value.now }
{
    match value {
        Value::Bool(_) => Obs::BoolIs,
        Value::Text(_) => Obs::TextIs,
        Value::Counter(_) | Value::Set(_) | Value::Hash(_) | Value::List(_) => Obs::CounterIs,
        Value::Peak(n) => Obs::PeakIs(*n),
    }
}

/// The number of items of a list.
fn item_count(value: &Value) -> usize
    ensures { result ≡ length (values.list_in value.now) }
{
    match value {
        Value::List(items) => items.len(),
        _ => 0,
    }
}

/// A place of a list that is observed.
fn place_observed(place: i64, takes_out: bool, value: &Value) -> Obs
    ensures { result ≡ reads.place_observed place takes_out (values.list_in value.now) }
{
    if place < 0 {
        return Obs::ListAll;
    }
    let place = place as u64;
    if !takes_out && place < item_count(value) as u64 {
        Obs::ListAt(place)
    } else {
        Obs::ListAll
    }
}

/// What a read observes that the own delta doesn't decide.
pub(crate) fn observed(read: &ReadOp, own: Option<&Delta>, value: &Value) -> Result<Obs, AllocError>
    ensures { IfOk result (λ o. o ≡ composed.observed_by read.now (option_copied own.entry) value.now) }
{
    Ok(match read {
        ReadOp::Get => whole_observed(value),
        ReadOp::SetHas(element) => Obs::SetHas(element.clone()?),
        ReadOp::SetAll => Obs::SetAll,
        ReadOp::HashHas(field) | ReadOp::HashGet(field) => Obs::HashAt(field.clone()?),
        ReadOp::HashFields => Obs::HashAll,
        ReadOp::ListAt(place) => place_observed(*place, removes(own), value),
        ReadOp::ListAll => Obs::ListAll,
        ReadOp::PeakOver(n) => Obs::PeakOver(*n, is_over(value, *n)),
    })
}
