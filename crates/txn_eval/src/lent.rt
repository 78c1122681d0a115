//! Items that are lent.

ghost use Rattle.std.specs.Prelude.{◌≡◌};
ghost use Rattle.txn_lang.specs.Items as spec;
ghost use Rattle.txn_eval.specs.code.Lending.{shown};

use crate::environment::Environment;
use plain_data::Text;
use rdt_types::{Item, TextList};

/// An item, which lends its texts. Its variants are those of an `Item`.
#[derive(Clone, Copy)]
pub(crate) enum Lent<'a> {
    Int(i64),
    Bool(bool),
    Text(&'a Text),
    Texts(&'a TextList),
}

/// An item, lent.
pub(crate) fn lend(item: &Item) -> Lent<'_>
    ensures { shown result ≡ item.now }
{
    match item {
        Item::Int(n) => Lent::Int(*n),
        Item::Bool(b) => Lent::Bool(*b),
        Item::Text(text) => Lent::Text(text),
        Item::Texts(texts) => Lent::Texts(texts),
    }
}

/// What a name stands for, lent.
pub(crate) fn lend_named<'a>(names: &'a Environment, name: &Text) -> Lent<'a>
    ensures { shown result ≡ spec.named names.now name.now }
{
    match names.get(name) {
        Some(item) => lend(item),
        None => Lent::Int(0),
    }
}
