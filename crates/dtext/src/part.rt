//! Write parts.

ghost use Rattle.std.specs.Prelude.{◌≡◌};
ghost use Rattle.predictive_parsing.specs.Bytes.{sees};
ghost use Rattle.predictive_parsing.specs.Reading.{optional};
ghost use Rattle.predictive_parsing.specs.Reads.{Reads, OnlyRefuses};
ghost use Rattle.dtext.specs.code.Reading as spec;

use crate::number::{begins_number, next_number};
use crate::text::next_text;
use crate::value::truth;
use plain_data::{OrNoMemory, Text};
use predictive_parsing::{Cursor, Refused};
use rdt_types::{Kind, WriteOp};
use std::alloc::Global;

#[tactic(auto, unfolding(crate::specs::code::Reading::text_behind))]
fn text_behind(alloc: Global, cursor: &mut Cursor<u8>) -> Result<Text, OrNoMemory<Refused>>
    ensures { Reads (spec.text_behind cursor.old) result cursor.new }
{
    cursor.byte(b' ')?;
    next_text(alloc, cursor)
}

/// A second text, where one is there.
#[tactic(auto, unfolding(predictive_parsing::specs::Reading::optional))]
fn second_text(alloc: Global, cursor: &mut Cursor<u8>) -> Result<Option<Text>, OrNoMemory<Refused>>
    ensures { Reads (optional (sees 32) spec.text_behind cursor.old) result cursor.new }
{
    if cursor.sees_byte(b' ') {
        Ok(Some(text_behind(alloc, cursor)?))
    } else {
        Ok(None)
    }
}

/// A text alone is a text's, and two are a field and a text of a hash.
fn put_of(first: Text, second: Option<Text>) -> WriteOp
    ensures { result ≡ spec.put_of first second }
{
    match second {
        None => WriteOp::PutText(first),
        Some(text) => WriteOp::HashPut(first, text),
    }
}

#[tactic(auto, unfolding(crate::specs::code::Reading::text_or_field))]
fn text_or_field(alloc: Global, cursor: &mut Cursor<u8>) -> Result<WriteOp, OrNoMemory<Refused>>
    ensures { Reads (spec.text_or_field cursor.old) result cursor.new }
{
    let first = next_text(alloc, cursor)?;
    let second = second_text(alloc, cursor)?;
    Ok(put_of(first, second))
}

/// What is put, which tells the kind.
#[tactic(auto, unfolding(crate::specs::code::Reading::put_value))]
fn put_value(alloc: Global, cursor: &mut Cursor<u8>) -> Result<WriteOp, OrNoMemory<Refused>>
    ensures { Reads (spec.put_value cursor.old) result cursor.new }
{
    if begins_number(cursor) {
        Ok(WriteOp::PutCounter(next_number(cursor)?))
    } else if cursor.sees_byte(b'"') {
        text_or_field(alloc, cursor)
    } else {
        Ok(WriteOp::PutBool(truth(cursor)?))
    }
}

fn put(alloc: Global, cursor: &mut Cursor<u8>) -> Result<WriteOp, OrNoMemory<Refused>>
    ensures { Reads (spec.put cursor.old) result cursor.new }
{
    cursor.word(b"t ")?;
    put_value(alloc, cursor)
}

fn push(alloc: Global, cursor: &mut Cursor<u8>) -> Result<WriteOp, OrNoMemory<Refused>>
    ensures { Reads (spec.push cursor.old) result cursor.new }
{
    cursor.word(b"sh ")?;
    Ok(WriteOp::ListPush(next_text(alloc, cursor)?))
}

/// `put` or `push`, which begin alike.
#[tactic(auto, unfolding(crate::specs::code::Reading::put_or_push))]
fn put_or_push(alloc: Global, cursor: &mut Cursor<u8>) -> Result<WriteOp, OrNoMemory<Refused>>
    ensures { Reads (spec.put_or_push cursor.old) result cursor.new }
{
    cursor.word(b"pu")?;
    if cursor.sees_byte(b't') {
        put(alloc, cursor)
    } else {
        push(alloc, cursor)
    }
}

fn added(alloc: Global, cursor: &mut Cursor<u8>) -> Result<WriteOp, OrNoMemory<Refused>>
    ensures { Reads (spec.added cursor.old) result cursor.new }
{
    if begins_number(cursor) {
        Ok(WriteOp::AddCounter(next_number(cursor)?))
    } else {
        Ok(WriteOp::SetAdd(next_text(alloc, cursor)?))
    }
}

#[tactic(auto, unfolding(crate::specs::code::Reading::addition))]
fn addition(alloc: Global, cursor: &mut Cursor<u8>) -> Result<WriteOp, OrNoMemory<Refused>>
    ensures { Reads (spec.addition cursor.old) result cursor.new }
{
    cursor.word(b"add ")?;
    added(alloc, cursor)
}

/// What a removal is of a kind.
fn removed(kind: Kind, text: Text) -> WriteOp
    ensures { result ≡ spec.removed kind text }
{
    match kind {
        Kind::Hash => WriteOp::HashRemove(text),
        Kind::List => WriteOp::ListRemove(text),
        _ => WriteOp::SetRemove(text),
    }
}

/// What a clear is of a kind.
fn cleared(kind: Kind) -> WriteOp
    ensures { result ≡ spec.cleared kind }
{
    match kind {
        Kind::Hash => WriteOp::HashClear,
        Kind::List => WriteOp::ListClear,
        _ => WriteOp::SetClear,
    }
}

#[tactic(auto, unfolding(crate::specs::code::Reading::removal))]
fn removal(
    alloc: Global,
    kind: Kind,
    cursor: &mut Cursor<u8>,
) -> Result<WriteOp, OrNoMemory<Refused>>
    ensures { Reads (spec.removal kind cursor.old) result cursor.new }
{
    cursor.word(b"remove ")?;
    Ok(removed(kind, next_text(alloc, cursor)?))
}

#[tactic(auto, unfolding(crate::specs::code::Reading::clearing))]
fn clearing(kind: Kind, cursor: &mut Cursor<u8>) -> Result<WriteOp, OrNoMemory<Refused>>
    ensures read { Reads (spec.clearing kind cursor.old) result cursor.new }
    ensures refusal { OnlyRefuses result }
{
    cursor.word(b"clear")?;
    Ok(cleared(kind))
}

/// What all collections have.
#[tactic(auto, unfolding(crate::specs::code::Reading::remove_or_clear))]
pub(crate) fn remove_or_clear(
    alloc: Global,
    kind: Kind,
    cursor: &mut Cursor<u8>,
) -> Result<WriteOp, OrNoMemory<Refused>>
    ensures { Reads (spec.remove_or_clear kind cursor.old) result cursor.new }
{
    if cursor.sees_byte(b'r') {
        removal(alloc, kind, cursor)
    } else {
        clearing(kind, cursor)
    }
}

fn raise(cursor: &mut Cursor<u8>) -> Result<WriteOp, OrNoMemory<Refused>>
    ensures read { Reads (spec.raise cursor.old) result cursor.new }
    ensures refusal { OnlyRefuses result }
{
    cursor.word(b"aise ")?;
    Ok(WriteOp::Raise(next_number(cursor)?))
}

fn remove(alloc: Global, cursor: &mut Cursor<u8>) -> Result<WriteOp, OrNoMemory<Refused>>
    ensures { Reads (spec.remove cursor.old) result cursor.new }
{
    cursor.word(b"emove ")?;
    Ok(WriteOp::SetRemove(next_text(alloc, cursor)?))
}

/// `raise` or `remove`, which begin alike.
#[tactic(auto, unfolding(crate::specs::code::Reading::raise_or_remove))]
fn raise_or_remove(alloc: Global, cursor: &mut Cursor<u8>) -> Result<WriteOp, OrNoMemory<Refused>>
    ensures { Reads (spec.raise_or_remove cursor.old) result cursor.new }
{
    cursor.word(b"r")?;
    if cursor.sees_byte(b'a') {
        raise(cursor)
    } else {
        remove(alloc, cursor)
    }
}

/// One write without its kind, which the form decides.
#[tactic(auto, unfolding(crate::specs::code::Reading::part))]
pub(crate) fn part(alloc: Global, cursor: &mut Cursor<u8>) -> Result<WriteOp, OrNoMemory<Refused>>
    ensures { Reads (spec.part cursor.old) result cursor.new }
{
    if cursor.sees_byte(b'p') {
        put_or_push(alloc, cursor)
    } else if cursor.sees_byte(b'a') {
        addition(alloc, cursor)
    } else if cursor.sees_byte(b'r') {
        raise_or_remove(alloc, cursor)
    } else {
        clearing(Kind::Set, cursor)
    }
}
