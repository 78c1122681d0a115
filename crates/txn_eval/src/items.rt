//! What operators mean on items, and the operations that words name with them.

ghost use Rattle.std.specs.Prelude.{◌≡◌, ◌≤◌, ◌^◌, IfOk, OnErr, map, pos};
ghost use Rattle.std.specs.Fmt.{signed_decimal};
ghost use Rattle.txn_lang.specs.Items as spec;
ghost use Rattle.txn_eval.specs.code.Lending.{shown};

use crate::lent::Lent;
use conflict_table::ReadOp;
use plain_data::Text;
use rdt_types::{Item, ItemList, Kind, TextList, WriteOp};
use std::alloc::{AllocError, Global};
use txn_trees::{Operator, ReadWord, Relation, WriteWord};

pub(crate) fn int_in(item: &Item) -> i64
    ensures { result ≡ spec.int_in item.now }
{
    match item {
        Item::Int(n) => *n,
        _ => 0,
    }
}

pub(crate) fn bool_in(item: &Item) -> bool
    ensures { result ≡ spec.bool_in item.now }
{
    match item {
        Item::Bool(b) => *b,
        _ => false,
    }
}

/// The text, moved out.
pub(crate) fn into_text(alloc: Global, item: Item) -> Text
    ensures { result ≡ spec.text_in item }
{
    match item {
        Item::Text(text) => text,
        _ => Text::new(alloc),
    }
}

/// The texts, moved out.
pub(crate) fn into_texts(alloc: Global, item: Item) -> TextList
    ensures { result ≡ spec.texts_in item }
{
    match item {
        Item::Texts(texts) => texts,
        _ => TextList::new(alloc),
    }
}

/// A length, as an item. No list in memory has one that doesn't fit, which alone would be told as want of memory.
fn counted(length: usize) -> Result<Item, AllocError>
    ensures item { IfOk result (λ i. i ≡ Item.Int (pos length)) }
    ensures told { OnErr result (2 ^ 63 ≤ length) }
{
    match i64::try_from(length) {
        Ok(n) => Ok(Item::Int(n)),
        Err(_) => Err(AllocError),
    }
}

/// The length of a text or of texts, as an item.
pub(crate) fn length_item(item: &Item) -> Result<Item, AllocError>
    ensures item { IfOk result (λ i. i ≡ Item.Int (pos (spec.length_of item.now))) }
    ensures told { OnErr result (2 ^ 63 ≤ spec.length_of item.now) }
{
    match item {
        Item::Text(text) => counted(text.len()),
        Item::Texts(texts) => counted(texts.len()),
        _ => Ok(Item::Int(0)),
    }
}

pub(crate) fn elements_in(item: &Item) -> u64
    ensures { result ≡ spec.elements_in item.now }
{
    match item {
        Item::Texts(texts) => texts.len() as u64,
        _ => 0,
    }
}

pub(crate) fn decides(operator: Operator, item: &Item) -> bool
    ensures { result ≡ spec.decides operator item.now }
{
    match operator {
        Operator::Or => bool_in(item),
        Operator::And => !bool_in(item),
        _ => false,
    }
}

/// A sum, or the first text with the second behind it, in the memory of the first.
pub(crate) fn plus(left: Item, right: &Item) -> Result<Item, AllocError>
    ensures { IfOk result (λ i. i ≡ spec.plus left right.now) }
{
    match left {
        Item::Text(mut text) => {
            if let Item::Text(more) = right {
                text.extend_from_slice(more.as_slice())?;
            }
            Ok(Item::Text(text))
        }
        left => Ok(Item::Int(int_in(&left).wrapping_add(int_in(right)))),
    }
}

pub(crate) fn joined(operator: Operator, left: Item, right: Item) -> Result<Item, AllocError>
    ensures { IfOk result (λ i. i ≡ spec.joined operator left right) }
{
    match operator {
        Operator::Or | Operator::And => Ok(right),
        Operator::Plus => plus(left, &right),
        Operator::Minus => Ok(Item::Int(int_in(&left).wrapping_sub(int_in(&right)))),
        Operator::Times => Ok(Item::Int(int_in(&left).wrapping_mul(int_in(&right)))),
    }
}

pub(crate) fn negated(item: &Item) -> Item
    ensures { result ≡ spec.negated item.now }
{
    Item::Int(int_in(item).wrapping_neg())
}

/// The int that is lent.
fn int_lent(item: Lent<'_>) -> i64
    ensures { result ≡ spec.int_in (shown item.entry) }
{
    match item {
        Lent::Int(n) => n,
        _ => 0,
    }
}

fn equals(left: Lent<'_>, right: Lent<'_>) -> bool
    ensures { result ≡ spec.equals (shown left.entry) (shown right.entry) }
{
    match (left, right) {
        (Lent::Text(a), Lent::Text(b)) => a.cmp(b).is_eq(),
        (Lent::Bool(a), Lent::Bool(b)) => a == b,
        (Lent::Int(a), Lent::Int(b)) => a == b,
        _ => false,
    }
}

pub(crate) fn compares(relation: Relation, left: Lent<'_>, right: Lent<'_>) -> bool
    ensures { result ≡ spec.compares relation (shown left.entry) (shown right.entry) }
{
    match relation {
        Relation::Equal => equals(left, right),
        Relation::Unequal => !equals(left, right),
        Relation::Less => int_lent(left).cmp(&int_lent(right)).is_lt(),
        Relation::AtMost => !int_lent(left).cmp(&int_lent(right)).is_gt(),
        Relation::Greater => int_lent(left).cmp(&int_lent(right)).is_gt(),
        Relation::AtLeast => !int_lent(left).cmp(&int_lent(right)).is_lt(),
    }
}

/// The decimal form of an int.
pub(crate) fn shown_int(alloc: Global, n: i64) -> Result<Text, AllocError>
    ensures { IfOk result (λ t. t ≡ signed_decimal n) }
{
    let digits = n.to_string(alloc)?;
    Text::from_slice(alloc, digits.as_bytes())
}

/// The texts of items, moved out.
pub(crate) fn texts_of(alloc: Global, items: ItemList) -> Result<TextList, AllocError>
    ensures { IfOk result (λ ts. ts ≡ map spec.text_in items) }
{
    let mut texts = TextList::new(alloc);
    for item in items.into_vec() {
        texts.push(into_text(alloc, item))?;
    }
    Ok(texts)
}

/// The first text, copied.
fn first_text(alloc: Global, items: &[Item]) -> Result<Text, AllocError>
    ensures { IfOk result (λ t. t ≡ spec.first_text items.now) }
{
    match items {
        [Item::Text(text), ..] => text.clone(),
        _ => Ok(Text::new(alloc)),
    }
}

fn first_int(items: &[Item]) -> i64
    ensures { result ≡ spec.first_int items.now }
{
    match items {
        [item, ..] => int_in(item),
        _ => 0,
    }
}

/// The read that a word of a kind names, with its arguments.
pub(crate) fn read_of(
    alloc: Global,
    kind: Kind,
    word: ReadWord,
    items: &[Item],
) -> Result<ReadOp, AllocError>
    ensures { IfOk result (λ r. r ≡ spec.read_of kind word items.now) }
{
    Ok(match (kind, word) {
        (Kind::Set, ReadWord::Has) => ReadOp::SetHas(first_text(alloc, items)?),
        (Kind::Set, _) => ReadOp::SetAll,
        (Kind::Hash, ReadWord::Has) => ReadOp::HashHas(first_text(alloc, items)?),
        (Kind::Hash, ReadWord::Get) => ReadOp::HashGet(first_text(alloc, items)?),
        (Kind::Hash, _) => ReadOp::HashFields,
        (Kind::List, ReadWord::At) => ReadOp::ListAt(first_int(items)),
        (Kind::List, _) => ReadOp::ListAll,
        (Kind::Peak, ReadWord::Over) => ReadOp::PeakOver(first_int(items)),
        (Kind::Bool | Kind::Counter | Kind::Text | Kind::Peak, _) => ReadOp::Get,
    })
}

/// The write of a counter.
fn counter_write(word: WriteWord, n: i64) -> Option<WriteOp>
    ensures { result ≡ spec.counter_write word n }
{
    match word {
        WriteWord::Put => Some(WriteOp::PutCounter(n)),
        WriteWord::Add => Some(WriteOp::AddCounter(n)),
        _ => None,
    }
}

/// The write of a set, a hash or a list with one text.
fn text_write(kind: Kind, word: WriteWord, text: Text) -> Option<WriteOp>
    ensures { result ≡ spec.text_write kind word text }
{
    match (kind, word) {
        (Kind::Set, WriteWord::Add) => Some(WriteOp::SetAdd(text)),
        (Kind::Set, WriteWord::Remove) => Some(WriteOp::SetRemove(text)),
        (Kind::Hash, WriteWord::Remove) => Some(WriteOp::HashRemove(text)),
        (Kind::List, WriteWord::Push) => Some(WriteOp::ListPush(text)),
        (Kind::List, WriteWord::Remove) => Some(WriteOp::ListRemove(text)),
        _ => None,
    }
}

fn clear_of(kind: Kind) -> Option<WriteOp>
    ensures { result ≡ spec.clear_of kind }
{
    match kind {
        Kind::Set => Some(WriteOp::SetClear),
        Kind::Hash => Some(WriteOp::HashClear),
        Kind::List => Some(WriteOp::ListClear),
        _ => None,
    }
}

/// The write with two arguments, which a hash alone has.
fn pair_write(kind: Kind, first: Text, second: Text) -> Option<WriteOp>
    ensures { result ≡ spec.pair_write kind first second }
{
    match kind {
        Kind::Hash => Some(WriteOp::HashPut(first, second)),
        _ => None,
    }
}

/// What a word of a kind writes, with its arguments.
pub(crate) fn write_of(
    alloc: Global,
    kind: Kind,
    word: WriteWord,
    items: &[Item],
) -> Result<Option<WriteOp>, AllocError>
    ensures { IfOk result (λ o. o ≡ spec.write_of kind word items.now) }
{
    match items {
        [] => Ok(clear_of(kind)),
        [item] => Ok(match kind {
            Kind::Bool => Some(WriteOp::PutBool(bool_in(item))),
            Kind::Counter => counter_write(word, int_in(item)),
            Kind::Text => Some(WriteOp::PutText(first_text(alloc, items)?)),
            Kind::Set | Kind::Hash | Kind::List => {
                text_write(kind, word, first_text(alloc, items)?)
            }
            Kind::Peak => Some(WriteOp::Raise(int_in(item))),
        }),
        [_, others @ ..] => {
            let first = first_text(alloc, items)?;
            let second = first_text(alloc, others)?;
            Ok(pair_write(kind, first, second))
        }
    }
}
