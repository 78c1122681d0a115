//! The part of a delta that is named where it clashes with an observation.

ghost use Rattle.std.specs.Prelude.{◌≡◌, true, Some, option_map};
ghost use Rattle.rdt_types.specs.Deltas.{kind_changed};
ghost use Rattle.conflict_table.specs.Observing.{kind_observed};
ghost use Rattle.conflict_table.specs.Clashes.{clash};
ghost use Rattle.conflict_table.specs.Parts as parts;
ghost use Rattle.conflict_table.specs.Parts.{shown};

use crate::lent::Part;
use crate::observation::Obs;
use plain_data::Text;
use rdt_types::{Delta, Mark};

/// A mark at an element of a set, if there is one.
fn set_part<'a>(mark: Option<&'a (Text, bool)>) -> Option<Part<'a>>
    ensures { option_map shown result ≡ parts.part_by parts.set_part mark.entry }
{
    let (element, is_added) = mark?;
    Some(if *is_added {
        Part::SetAdd(element)
    } else {
        Part::SetRemove(element)
    })
}

/// A mark at a field of a hash, if there is one.
fn hash_part<'a>(mark: Option<&'a (Text, Mark)>) -> Option<Part<'a>>
    ensures { option_map shown result ≡ parts.part_by parts.hash_part mark.entry }
{
    let (field, mark) = mark?;
    Some(match mark {
        Mark::Put(text) => Part::HashPut(field, text),
        Mark::Removed => Part::HashRemove(field),
    })
}

/// The put or addition of a delta that is one.
fn whole_part(delta: &Delta) -> Option<Part<'_>>
    ensures { option_map shown result ≡ parts.whole_part delta.now }
{
    match delta {
        Delta::PutBool(b) => Some(Part::PutBool(*b)),
        Delta::PutCounter(n) => Some(Part::PutCounter(*n)),
        Delta::AddCounter(n) => Some(Part::AddCounter(*n)),
        Delta::PutText(text) => Some(Part::PutText(text)),
        _ => None,
    }
}

/// The clear of a delta that clears.
fn clear_part(delta: &Delta) -> Option<Part<'_>>
    ensures { option_map shown result ≡ parts.clear_part delta.now }
{
    match delta {
        Delta::Set(d) => d.cleared().then_some(Part::SetClear),
        Delta::Hash(d) => d.cleared().then_some(Part::HashClear),
        Delta::List(d) => d.cleared().then_some(Part::ListClear),
        _ => None,
    }
}

/// The mark at an element or a field.
fn mark_part<'a>(delta: &'a Delta, key: &Text) -> Option<Part<'a>>
    ensures { option_map shown result ≡ parts.mark_part key.now delta.now }
{
    match delta {
        Delta::Set(d) => set_part(d.marks().get_pair(key)),
        Delta::Hash(d) => hash_part(d.marks().get_pair(key)),
        _ => None,
    }
}

/// The first mark.
fn first_mark(delta: &Delta) -> Option<Part<'_>>
    ensures { option_map shown result ≡ parts.first_mark delta.now }
{
    match delta {
        Delta::Set(d) => set_part(d.marks().as_slice().first()),
        Delta::Hash(d) => hash_part(d.marks().as_slice().first()),
        _ => None,
    }
}

/// The first text that is taken out.
fn first_removed(delta: &Delta) -> Option<Part<'_>>
    ensures { option_map shown result ≡ parts.first_removed delta.now }
{
    match delta {
        Delta::List(d) => match d.removed().as_slice().first() {
            Some((text, ())) => Some(Part::ListRemove(text)),
            None => None,
        },
        _ => None,
    }
}

/// The first item that is pushed.
fn first_pushed(delta: &Delta) -> Option<Part<'_>>
    ensures { option_map shown result ≡ parts.first_pushed delta.now }
{
    match delta {
        Delta::List(d) => d.pushed().as_slice().first().map(Part::ListPush),
        _ => None,
    }
}

/// The raise of a delta that raises a peak above a number.
fn raise_part(number: i64, delta: &Delta) -> Option<Part<'_>>
    ensures { option_map shown result ≡ parts.raise_part number delta.now }
{
    match delta {
        Delta::Raise(n) => (number < *n).then_some(Part::Raise(*n)),
        _ => None,
    }
}

/// The part that the rules name, if there is one.
fn named<'a>(obs: &Obs, delta: &'a Delta) -> Option<Part<'a>>
    ensures { option_map shown result ≡ parts.named obs.now delta.now }
{
    match obs {
        Obs::BoolIs | Obs::CounterIs | Obs::TextIs => whole_part(delta),
        Obs::SetHas(key) | Obs::HashAt(key) => clear_part(delta).or(mark_part(delta, key)),
        Obs::SetAll | Obs::HashAll => clear_part(delta).or(first_mark(delta)),
        Obs::ListAt(_) => clear_part(delta).or(first_removed(delta)),
        Obs::ListAll => clear_part(delta)
            .or(first_removed(delta))
            .or(first_pushed(delta)),
        Obs::PeakIs(n) => raise_part(*n, delta),
        Obs::PeakOver(n, is_over) => {
            if *is_over {
                None
            } else {
                raise_part(*n, delta)
            }
        }
    }
}

/// The part of a delta by which it clashes with an observation, lent by the delta. It is never refused for want of memory.
pub fn part<'a>(obs: &Obs, delta: &'a Delta) -> Part<'a>
    requires kind { kind_observed obs.now ≡ kind_changed delta.now }
    requires clash { clash obs.now delta.now ≡ true }
    ensures { parts.named obs.now delta.now ≡ Some (shown result) }
{
    named(obs, delta).unwrap()
}
