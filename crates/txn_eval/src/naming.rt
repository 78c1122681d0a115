//! Names.

ghost use Rattle.std.specs.Prelude.{◌≡◌, ◌+◌, ◌<◌, ◌^◌, drop, slice_get, IfOk, IfSome};
ghost use Rattle.txn_lang.specs.Items as spec;
ghost use Rattle.txn_lang.specs.Items.{Names};
ghost use Rattle.txn_eval.specs.Pausing.{texts_over};
ghost use Rattle.txn_eval.specs.code.Pauses.{left_behind};

use crate::environment::Environment;
use crate::pause::Over;
use plain_data::{ExactClone, Text};
use rdt_types::{Item, TextList};
use std::alloc::{AllocError, Global};
use std::mem::replace;

/// What a name stands for, copied.
pub(crate) fn named(names: &Environment, name: &Text) -> Result<Item, AllocError>
    ensures { IfOk result (λ item. item ≡ spec.named names.now name.now) }
{
    match names.get(name) {
        Some(item) => item.clone(),
        None => Ok(Item::Int(0)),
    }
}

/// The texts of the list that a name stands for, lent.
pub(crate) fn texts_named<'a>(names: &'a Environment, name: &Text) -> &'a [Text]
    ensures { result.now ≡ spec.texts_in (spec.named names.now name.now) }
{
    match names.get(name) {
        Some(Item::Texts(texts)) => texts.as_slice(),
        _ => &[],
    }
}

/// The text at a place of a list, moved out.
fn taken(alloc: Global, texts: &mut TextList, place: usize) -> Option<Text>
    ensures text { result ≡ slice_get texts.old place }
    ensures next { IfSome result (λ _. place + 1 < 2 ^ 64) }
    ensures behind { drop (place + 1) texts.new ≡ drop (place + 1) texts.old }
{
    if place < texts.len() {
        let mut all = replace(texts, TextList::new(alloc)).into_vec();
        let text = replace(&mut all[place], Text::new(alloc));
        *texts = TextList::from_vec(all);
        Some(text)
    } else {
        None
    }
}

/// The text at a place of a list, copied.
fn copied_at(texts: &[Text], place: usize) -> Result<Option<Text>, AllocError>
    ensures text { IfOk result (λ text. text ≡ slice_get texts.now place) }
    ensures next { IfOk result (λ text. IfSome text (λ _. place + 1 < 2 ^ 64)) }
{
    if place < texts.len() {
        Ok(Some(texts[place].clone()?))
    } else {
        Ok(None)
    }
}

/// The text of a turn of a loop, where there is one more. Out of texts of the loop's own it is moved, and else copied.
pub(crate) fn text_over(
    over: &mut Over,
    names: &Environment,
    place: usize,
    alloc: Global,
) -> Result<Option<Text>, AllocError>
    ensures text { IfOk result (λ text. text ≡ slice_get (texts_over over.old names.now) place) }
    ensures next { IfOk result (λ text. IfSome text (λ _. place + 1 < 2 ^ 64)) }
    ensures behind { (ns : Names) → left_behind place over.new ns ≡ left_behind place over.old ns }
{
    match over {
        Over::Texts(texts) => Ok(taken(alloc, texts, place)),
        Over::Name(name) => copied_at(texts_named(names, name), place),
    }
}
