//! What a read answers of a value over which a delta may lie. It looks at the marks first, and copies what it answers.

ghost use Rattle.std.specs.Prelude.{◌≡◌, ◌++◌, [], slice_get, Some, None, Ok, Err, IfOk, IfErr};
ghost use Rattle.std.specs.Option as option;
ghost use Rattle.std.specs.Option.{option_copied};
ghost use Rattle.std.specs.FinMap as fin;
ghost use Rattle.plain_data.specs.Texts.{has_text};
ghost use Rattle.rdt_types.specs.Values as values;
ghost use Rattle.rdt_types.specs.Values.{set_in, hash_in, list_in};
ghost use Rattle.rdt_types.specs.Listed as listed;
ghost use Rattle.rdt_types.specs.Keyed.{applied};
ghost use Rattle.rdt_types.specs.Marks.{added, put_by};
ghost use Rattle.conflict_table.specs.Reads as reads;
ghost use Rattle.write_buffer.specs.code.Kept.{kept_from};
ghost use Rattle.write_buffer.specs.code.Left.{left_over};

use crate::keys::{key_set, keys_of, keys_over};
use conflict_table::{ReadOp, counter_in, has_element, peak_in};
use plain_data::{ExactClone, Text, TextSet};
use rdt_types::{Delta, HashDelta, Item, ListDelta, Mark, SetDelta, TextList, Value};
use std::alloc::{AllocError, Global};

/// The whole of a bool, a counter, a text or a peak.
fn whole(alloc: Global, value: &Value) -> Result<Item, AllocError>
    ensures { IfOk result (λ i. i ≡ reads.whole value.now) }
{
    Ok(match value {
        Value::Bool(b) => Item::Bool(*b),
        Value::Counter(n) => Item::Int(*n),
        Value::Text(text) => Item::Text(text.clone()?),
        Value::Set(_) | Value::Hash(_) | Value::List(_) => Item::Text(Text::new(alloc)),
        Value::Peak(n) => Item::Int(*n),
    })
}

/// What a `get` answers.
fn get(alloc: Global, own: Option<&Delta>, value: &Value) -> Result<Item, AllocError>
    ensures { IfOk result (λ i. i ≡ reads.whole (left_over own.entry value.now)) }
{
    Ok(match own {
        None => whole(alloc, value)?,
        Some(Delta::PutBool(b)) => Item::Bool(*b),
        Some(Delta::PutCounter(n)) => Item::Int(*n),
        Some(Delta::AddCounter(n)) => Item::Int(counter_in(value).wrapping_add(*n)),
        Some(Delta::PutText(text)) => Item::Text(text.clone()?),
        Some(Delta::Set(_) | Delta::Hash(_) | Delta::List(_)) => Item::Text(Text::new(alloc)),
        Some(Delta::Raise(n)) => Item::Int(peak_in(value).max(*n)),
    })
}

/// Whether an element is in a set over which a delta lies.
fn has_over(d: &SetDelta, element: &Text, value: &Value) -> bool
    ensures { result ≡ has_text (applied added d.now (set_in value.now)) element.now }
{
    match d.marks().get(element) {
        Some(added) => *added,
        None => {
            if d.cleared() {
                false
            } else {
                has_element(value, element)
            }
        }
    }
}

/// Whether an element is there.
fn set_has(own: Option<&Delta>, element: &Text, value: &Value) -> bool
    ensures { result ≡ has_text (set_in (left_over own.entry value.now)) element.now }
{
    match own {
        None => has_element(value, element),
        Some(own) => match own {
            Delta::Set(d) => has_over(d, element, value),
            _ => false,
        },
    }
}

/// The text at a field of a hash, lent.
fn field_in<'a>(value: &'a Value, field: &Text) -> Option<&'a Text>
    ensures { option_copied result ≡ fin.get (hash_in value.now) field.now }
{
    match value {
        Value::Hash(hash) => hash.get(field),
        _ => None,
    }
}

/// The text at a field of a hash over which a delta lies, lent.
fn field_over<'a>(d: &'a HashDelta, field: &Text, value: &'a Value) -> Option<&'a Text>
    ensures { option_copied result ≡ fin.get (applied put_by d.now (hash_in value.now)) field.now }
{
    match d.marks().get(field) {
        Some(Mark::Put(text)) => Some(text),
        Some(Mark::Removed) => None,
        None => {
            if d.cleared() {
                None
            } else {
                field_in(value, field)
            }
        }
    }
}

/// The text at a field, lent.
fn hash_at<'a>(own: Option<&'a Delta>, field: &Text, value: &'a Value) -> Option<&'a Text>
    ensures { option_copied result ≡ fin.get (hash_in (left_over own.entry value.now)) field.now }
{
    match own {
        None => field_in(value, field),
        Some(own) => match own {
            Delta::Hash(d) => field_over(d, field, value),
            _ => None,
        },
    }
}

/// A copy of a text, or an empty one.
fn text_or_empty(alloc: Global, text: Option<&Text>) -> Result<Text, AllocError>
    ensures { IfOk result (λ copy. copy ≡ option.unwrap_or (option_copied text.entry) []) }
{
    match text {
        Some(text) => text.clone(),
        None => Ok(Text::new(alloc)),
    }
}

/// The elements of a set.
fn elements(alloc: Global, value: &Value) -> Result<TextList, AllocError>
    ensures { IfOk result (λ xs. xs ≡ fin.keys (set_in value.now)) }
{
    match value {
        Value::Set(set) => keys_of(alloc, set),
        _ => Ok(TextList::new(alloc)),
    }
}

/// The elements of a set after a delta.
fn set_over(alloc: Global, d: &SetDelta, value: &Value) -> Result<TextList, AllocError>
    ensures { IfOk result (λ xs. xs ≡ fin.keys (applied added d.now (set_in value.now))) }
{
    match value {
        Value::Set(set) => keys_over(alloc, d, set),
        _ => keys_over(alloc, d, &TextSet::new(alloc)),
    }
}

/// The elements of a set over which the own delta lies.
fn set_all(alloc: Global, own: Option<&Delta>, value: &Value) -> Result<TextList, AllocError>
    ensures { IfOk result (λ xs. xs ≡ fin.keys (set_in (left_over own.entry value.now))) }
{
    match own {
        None => elements(alloc, value),
        Some(own) => match own {
            Delta::Set(d) => set_over(alloc, d, value),
            _ => Ok(TextList::new(alloc)),
        },
    }
}

/// The fields of a hash.
fn fields(alloc: Global, value: &Value) -> Result<TextList, AllocError>
    ensures { IfOk result (λ xs. xs ≡ fin.keys (hash_in value.now)) }
{
    match value {
        Value::Hash(hash) => keys_of(alloc, hash),
        _ => Ok(TextList::new(alloc)),
    }
}

/// The fields of a hash after a delta.
fn hash_over(alloc: Global, d: &HashDelta, value: &Value) -> Result<TextList, AllocError>
    ensures { IfOk result (λ xs. xs ≡ fin.keys (applied put_by d.now (hash_in value.now))) }
{
    match value {
        Value::Hash(hash) => keys_over(alloc, d, &key_set(alloc, hash)?),
        _ => keys_over(alloc, d, &TextSet::new(alloc)),
    }
}

/// The fields of a hash over which the own delta lies.
fn hash_fields(alloc: Global, own: Option<&Delta>, value: &Value) -> Result<TextList, AllocError>
    ensures { IfOk result (λ xs. xs ≡ fin.keys (hash_in (left_over own.entry value.now))) }
{
    match own {
        None => fields(alloc, value),
        Some(own) => match own {
            Delta::Hash(d) => hash_over(alloc, d, value),
            _ => Ok(TextList::new(alloc)),
        },
    }
}

/// The items of a list.
fn items(alloc: Global, value: &Value) -> Result<TextList, AllocError>
    ensures { IfOk result (λ xs. xs ≡ list_in value.now) }
{
    match value {
        Value::List(items) => items.clone(),
        _ => Ok(TextList::new(alloc)),
    }
}

/// The list after a delta.
fn list_over(alloc: Global, d: &ListDelta, value: &Value) -> Result<TextList, AllocError>
    ensures { IfOk result (λ xs. xs ≡ listed.applied d.now (list_in value.now)) }
{
    match value {
        Value::List(items) => d.applied(alloc, items),
        _ => d.applied(alloc, &TextList::new(alloc)),
    }
}

/// The items of a list over which the own delta lies.
fn list_all(alloc: Global, own: Option<&Delta>, value: &Value) -> Result<TextList, AllocError>
    ensures { IfOk result (λ xs. xs ≡ list_in (left_over own.entry value.now)) }
{
    match own {
        None => items(alloc, value),
        Some(own) => match own {
            Delta::List(d) => list_over(alloc, d, value),
            _ => Ok(TextList::new(alloc)),
        },
    }
}

/// The items of a list, lent.
fn items_in(value: &Value) -> &[Text]
    ensures { result.now ≡ list_in value.now }
{
    match value {
        Value::List(items) => items.as_slice(),
        _ => &[],
    }
}

/// The item at a place among those that aren't taken out, lent; or how many places are left behind them.
fn kept_at<'a>(removed: &TextSet, items: &'a [Text], place: usize) -> Result<&'a Text, usize>
    ensures found { IfOk result (λ item. kept_from removed.now items.now place ≡ Ok item.now) }
    ensures behind { IfErr result (λ left. kept_from removed.now items.now place ≡ Err left) }
{
    let mut left = place;
    for item in items {
        if !removed.contains(item) {
            if left == 0 {
                return Ok(item);
            }
            left -= 1;
        }
    }
    Err(left)
}

/// The item at a place of two lists, one behind the other, lent.
fn item_in_two<'a>(items: &'a [Text], pushed: &'a TextList, place: usize) -> Option<&'a Text>
    ensures { option_copied result ≡ slice_get (items.now ++ pushed.now) place }
{
    if place < items.len() {
        Some(&items[place])
    } else {
        pushed.get(place - items.len())
    }
}

/// The item at a place of a list over which a delta lies, lent.
fn item_over<'a>(d: &'a ListDelta, items: &'a [Text], place: usize) -> Option<&'a Text>
    ensures { option_copied result ≡ slice_get (listed.applied d.now items.now) place }
{
    if d.cleared() {
        return d.pushed().get(place);
    }
    if d.removed().is_empty() {
        return item_in_two(items, d.pushed(), place);
    }
    match kept_at(d.removed(), items, place) {
        Ok(item) => Some(item),
        Err(left) => d.pushed().get(left),
    }
}

/// The item at a place, lent.
fn list_at<'a>(own: Option<&'a Delta>, place: usize, value: &'a Value) -> Option<&'a Text>
    ensures { option_copied result ≡ slice_get (list_in (left_over own.entry value.now)) place }
{
    match own {
        None => items_in(value).get(place),
        Some(own) => match own {
            Delta::List(d) => item_over(d, items_in(value), place),
            _ => None,
        },
    }
}

/// The height of a peak over which the own delta lies.
fn height(own: Option<&Delta>, value: &Value) -> i64
    ensures { result ≡ values.peak_in (left_over own.entry value.now) }
{
    match own {
        None => peak_in(value),
        Some(own) => match own {
            Delta::Raise(n) => peak_in(value).max(*n),
            _ => 0,
        },
    }
}

/// What a read answers of a value over which the own delta lies.
pub(crate) fn answer(
    alloc: Global,
    read: &ReadOp,
    own: Option<&Delta>,
    value: &Value,
) -> Result<Item, AllocError>
    ensures { IfOk result (λ i. i ≡ reads.answer read.now (left_over own.entry value.now)) }
{
    match read {
        ReadOp::Get => get(alloc, own, value),
        ReadOp::SetHas(element) => Ok(Item::Bool(set_has(own, element, value))),
        ReadOp::SetAll => Ok(Item::Texts(set_all(alloc, own, value)?)),
        ReadOp::HashHas(field) => Ok(Item::Bool(hash_at(own, field, value).is_some())),
        ReadOp::HashGet(field) => {
            Ok(Item::Text(text_or_empty(alloc, hash_at(own, field, value))?))
        }
        ReadOp::HashFields => Ok(Item::Texts(hash_fields(alloc, own, value)?)),
        ReadOp::ListAt(place) => {
            if *place < 0 {
                return Ok(Item::Text(Text::new(alloc)));
            }
            let found = list_at(own, *place as usize, value);
            Ok(Item::Text(text_or_empty(alloc, found)?))
        }
        ReadOp::ListAll => Ok(Item::Texts(list_all(alloc, own, value)?)),
        ReadOp::PeakOver(n) => Ok(Item::Bool(*n < height(own, value))),
    }
}
