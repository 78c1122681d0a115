//! What an observation answers of a value.

ghost use Rattle.std.specs.Prelude.{◌≡◌, IfOk, slice_get, option_copied};
ghost use Rattle.std.specs.FinMap as map;
ghost use Rattle.plain_data.specs.Texts.{has_text};
ghost use Rattle.rdt_types.specs.Values as values;
ghost use Rattle.conflict_table.specs.Observing as observing;

use crate::answer::Answer;
use crate::observation::Obs;
use plain_data::{Text, TextMap, TextSet};
use rdt_types::{TextList, Value};
use std::alloc::{AllocError, Global};

/// The whole of a bool.
fn bool_in(value: &Value) -> bool
    ensures { result ≡ values.bool_in value.now }
{
    match value {
        Value::Bool(b) => *b,
        _ => false,
    }
}

/// The whole of a counter. Of a value of another kind it is 0.
pub fn counter_in(value: &Value) -> i64
    ensures { result ≡ values.counter_in value.now }
{
    match value {
        Value::Counter(n) => *n,
        _ => 0,
    }
}

/// The whole of a text.
fn text_in(alloc: Global, value: &Value) -> Result<Text, AllocError>
    ensures { IfOk result (λ text. text ≡ values.text_in value.now) }
{
    match value {
        Value::Text(text) => text.clone(),
        _ => Ok(Text::new(alloc)),
    }
}

/// Whether an element is in a set. There is none in a value of another kind.
pub fn has_element(value: &Value, element: &Text) -> bool
    ensures { result ≡ has_text (values.set_in value.now) element.now }
{
    match value {
        Value::Set(set) => set.contains(element),
        _ => false,
    }
}

/// The whole of a set.
fn set_in(alloc: Global, value: &Value) -> Result<TextSet, AllocError>
    ensures { IfOk result (λ set. set ≡ values.set_in value.now) }
{
    match value {
        Value::Set(set) => set.clone(),
        _ => Ok(TextSet::new(alloc)),
    }
}

/// A text of one's own, if there is one.
fn copied(text: Option<&Text>) -> Result<Option<Text>, AllocError>
    ensures { IfOk result (λ copy. copy ≡ option_copied text.entry) }
{
    Ok(match text {
        Some(text) => Some(text.clone()?),
        None => None,
    })
}

/// The text at a field of a hash, if there is one.
fn text_at(value: &Value, field: &Text) -> Result<Option<Text>, AllocError>
    ensures { IfOk result (λ text. text ≡ map.get (values.hash_in value.now) field.now) }
{
    match value {
        Value::Hash(hash) => copied(hash.get(field)),
        _ => Ok(None),
    }
}

/// The whole of a hash.
fn hash_in(alloc: Global, value: &Value) -> Result<TextMap<Text>, AllocError>
    ensures { IfOk result (λ hash. hash ≡ values.hash_in value.now) }
{
    match value {
        Value::Hash(hash) => hash.clone(),
        _ => Ok(TextMap::new(alloc)),
    }
}

/// The item at a place of a list, if there is one.
fn item_at(value: &Value, place: u64) -> Result<Option<Text>, AllocError>
    ensures { IfOk result (λ item. item ≡ slice_get (values.list_in value.now) place) }
{
    match value {
        Value::List(list) => copied(list.get(place as usize)),
        _ => Ok(None),
    }
}

/// The whole of a list.
fn list_in(alloc: Global, value: &Value) -> Result<TextList, AllocError>
    ensures { IfOk result (λ list. list ≡ values.list_in value.now) }
{
    match value {
        Value::List(list) => list.clone(),
        _ => Ok(TextList::new(alloc)),
    }
}

/// The whole of a peak. Of a value of another kind it is 0.
pub fn peak_in(value: &Value) -> i64
    ensures { result ≡ values.peak_in value.now }
{
    match value {
        Value::Peak(n) => *n,
        _ => 0,
    }
}

/// Whether a peak is above a number.
pub fn is_over(value: &Value, number: i64) -> bool
    ensures { result ≡ observing.is_over number (values.peak_in value.now) }
{
    number < peak_in(value)
}

/// What an observation answers of a value. Of a value of another kind, which no address leads to, it answers what it
/// answers of the default of its own.
pub fn observe(alloc: Global, obs: &Obs, value: &Value) -> Result<Answer, AllocError>
    ensures { IfOk result (λ answer. answer ≡ observing.observe obs.now value.now) }
{
    Ok(match obs {
        Obs::BoolIs => Answer::Bool(bool_in(value)),
        Obs::CounterIs => Answer::Counter(counter_in(value)),
        Obs::TextIs => Answer::Text(text_in(alloc, value)?),
        Obs::SetHas(element) => Answer::Bool(has_element(value, element)),
        Obs::SetAll => Answer::Set(set_in(alloc, value)?),
        Obs::HashAt(field) => Answer::Maybe(text_at(value, field)?),
        Obs::HashAll => Answer::Hash(hash_in(alloc, value)?),
        Obs::ListAt(place) => Answer::Maybe(item_at(value, *place)?),
        Obs::ListAll => Answer::List(list_in(alloc, value)?),
        Obs::PeakIs(_) => Answer::Peak(peak_in(value)),
        Obs::PeakOver(n, _) => Answer::Bool(is_over(value, *n)),
    })
}
