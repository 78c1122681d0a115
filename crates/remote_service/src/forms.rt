//! Which changes have a spelling: those whose texts are no longer than texts may be. What runs write is so; of a backend that
//! doesn't tell its journal nobody knows.

ghost use Rattle.std.specs.Prelude.{◌≡◌, length, ◌≤◌};
ghost use Rattle.std.specs.Bool.{OnTrue};
ghost use Rattle.std.specs.List.{AllByRecursion};
ghost use Rattle.rdt_types.specs.declared.delta.Delta.TheVariants as delta;
ghost use Rattle.record_code.specs.Forms.{IsShort, IsShortMark, HasForm, IsFiled};

use plain_data::Text;
use rdt_types::{Address, Delta, HashDelta, ListDelta, Mark, SetDelta};
use txn_lang::TEXT_LIMIT;

/// Whether a text is no longer than texts may be.
fn is_short(text: &Text) -> bool
    ensures { OnTrue result (IsShort text.now) }
{
    text.len() <= TEXT_LIMIT
}

/// Whether each text is.
fn are_short(texts: &[Text]) -> bool
    ensures { OnTrue result (AllByRecursion IsShort texts.now) }
{
    for text in texts {
        if !is_short(text) {
            return false;
        }
    }
    true
}

/// Whether the text that a mark puts is.
fn is_short_mark(mark: &Mark) -> bool
    ensures { OnTrue result (IsShortMark mark.now) }
{
    match mark {
        Mark::Put(text) => is_short(text),
        Mark::Removed => true,
    }
}

/// Whether each key is.
fn have_short_keys<M>(marks: &[(Text, M)]) -> bool
    ensures { OnTrue result (AllByRecursion (λ marked. IsShort marked.0) marks.now) }
{
    for marked in marks {
        if !is_short(&marked.0) {
            return false;
        }
    }
    true
}

/// Whether a field and its mark are.
fn is_short_field(marked: &(Text, Mark)) -> bool
    ensures { OnTrue result (IsShort marked.now.0 × IsShortMark marked.now.1) }
{
    is_short(&marked.0) && is_short_mark(&marked.1)
}

/// Whether each field and its mark are.
fn have_short_fields(marks: &[(Text, Mark)]) -> bool
    ensures { OnTrue result (AllByRecursion (λ marked. IsShort marked.0 × IsShortMark marked.1) marks.now) }
{
    for marked in marks {
        if !is_short_field(marked) {
            return false;
        }
    }
    true
}

/// Whether a change of a set has its form.
fn set_has_form(change: &SetDelta) -> bool
    ensures { OnTrue result (HasForm (delta.Set change.now)) }
{
    have_short_keys(change.marks().as_slice())
}

/// Whether a change of a hash has.
fn hash_has_form(change: &HashDelta) -> bool
    ensures { OnTrue result (HasForm (delta.Hash change.now)) }
{
    have_short_fields(change.marks().as_slice())
}

/// Whether a change of a list has.
fn list_has_form(change: &ListDelta) -> bool
    ensures { OnTrue result (HasForm (delta.List change.now)) }
{
    have_short_keys(change.removed().as_slice()) && are_short(change.pushed().as_slice())
}

/// Whether a change has its form.
fn has_form(delta: &Delta) -> bool
    ensures { OnTrue result (HasForm delta.now) }
{
    match delta {
        Delta::PutText(text) => is_short(text),
        Delta::Set(change) => set_has_form(change),
        Delta::Hash(change) => hash_has_form(change),
        Delta::List(change) => list_has_form(change),
        Delta::PutBool(_) | Delta::PutCounter(_) | Delta::AddCounter(_) | Delta::Raise(_) => true,
    }
}

/// Whether a change at an address has a spelling.
fn is_filed(pair: &(Address, Delta)) -> bool
    ensures { OnTrue result (IsFiled pair.now) }
{
    is_short(&pair.0.key) && pair.1.kind() == pair.0.kind && has_form(&pair.1)
}

/// Whether all changes have one.
pub(crate) fn are_filed(changes: &[(Address, Delta)]) -> bool
    ensures { OnTrue result (AllByRecursion IsFiled changes.now) }
{
    for pair in changes {
        if !is_filed(pair) {
            return false;
        }
    }
    true
}
