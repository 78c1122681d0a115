//! Write parts beside an address, whose kind decides.

ghost use Rattle.std.specs.Prelude.{◌≡◌};
ghost use Rattle.predictive_parsing.specs.Reads.{Reads, OnlyRefuses};
ghost use Rattle.dtext.specs.code.Reading as spec;

use crate::number::next_number;
use crate::part::remove_or_clear;
use crate::text::next_text;
use crate::value::truth;
use plain_data::OrNoMemory;
use predictive_parsing::{Cursor, Refused};
use rdt_types::{Kind, WriteOp};
use std::alloc::Global;

/// A truth value that is put.
#[tactic(auto, unfolding(crate::specs::code::Reading::bool_part))]
fn bool_part(cursor: &mut Cursor<u8>) -> Result<WriteOp, OrNoMemory<Refused>>
    ensures read { Reads (spec.bool_part cursor.old) result cursor.new }
    ensures refusal { OnlyRefuses result }
{
    cursor.word(b"put ")?;
    Ok(WriteOp::PutBool(truth(cursor)?))
}

/// A number that is put or added.
#[tactic(auto, unfolding(crate::specs::code::Reading::counter_part))]
fn counter_part(cursor: &mut Cursor<u8>) -> Result<WriteOp, OrNoMemory<Refused>>
    ensures read { Reads (spec.counter_part cursor.old) result cursor.new }
    ensures refusal { OnlyRefuses result }
{
    if cursor.sees_byte(b'p') {
        cursor.word(b"put ")?;
        Ok(WriteOp::PutCounter(next_number(cursor)?))
    } else {
        cursor.word(b"add ")?;
        Ok(WriteOp::AddCounter(next_number(cursor)?))
    }
}

/// A text that is put.
#[tactic(auto, unfolding(crate::specs::code::Reading::text_part))]
fn text_part(alloc: Global, cursor: &mut Cursor<u8>) -> Result<WriteOp, OrNoMemory<Refused>>
    ensures { Reads (spec.text_part cursor.old) result cursor.new }
{
    cursor.word(b"put ")?;
    Ok(WriteOp::PutText(next_text(alloc, cursor)?))
}

/// A text that is added, or what all collections have.
#[tactic(auto, unfolding(crate::specs::code::Reading::set_part))]
fn set_part(alloc: Global, cursor: &mut Cursor<u8>) -> Result<WriteOp, OrNoMemory<Refused>>
    ensures { Reads (spec.set_part cursor.old) result cursor.new }
{
    if cursor.sees_byte(b'a') {
        cursor.word(b"add ")?;
        Ok(WriteOp::SetAdd(next_text(alloc, cursor)?))
    } else {
        remove_or_clear(alloc, Kind::Set, cursor)
    }
}

/// A field, and the text at it.
#[tactic(auto, unfolding(crate::specs::code::Reading::field))]
fn field(alloc: Global, cursor: &mut Cursor<u8>) -> Result<WriteOp, OrNoMemory<Refused>>
    ensures { Reads (spec.field cursor.old) result cursor.new }
{
    let field = next_text(alloc, cursor)?;
    cursor.byte(b' ')?;
    let text = next_text(alloc, cursor)?;
    Ok(WriteOp::HashPut(field, text))
}

/// A field that is put, or what all collections have.
#[tactic(auto, unfolding(crate::specs::code::Reading::hash_part))]
fn hash_part(alloc: Global, cursor: &mut Cursor<u8>) -> Result<WriteOp, OrNoMemory<Refused>>
    ensures { Reads (spec.hash_part cursor.old) result cursor.new }
{
    if cursor.sees_byte(b'p') {
        cursor.word(b"put ")?;
        field(alloc, cursor)
    } else {
        remove_or_clear(alloc, Kind::Hash, cursor)
    }
}

/// A text that is pushed, or what all collections have.
#[tactic(auto, unfolding(crate::specs::code::Reading::list_part))]
fn list_part(alloc: Global, cursor: &mut Cursor<u8>) -> Result<WriteOp, OrNoMemory<Refused>>
    ensures { Reads (spec.list_part cursor.old) result cursor.new }
{
    if cursor.sees_byte(b'p') {
        cursor.word(b"push ")?;
        Ok(WriteOp::ListPush(next_text(alloc, cursor)?))
    } else {
        remove_or_clear(alloc, Kind::List, cursor)
    }
}

/// The number that a peak is raised to.
#[tactic(auto, unfolding(crate::specs::code::Reading::peak_part))]
fn peak_part(cursor: &mut Cursor<u8>) -> Result<WriteOp, OrNoMemory<Refused>>
    ensures read { Reads (spec.peak_part cursor.old) result cursor.new }
    ensures refusal { OnlyRefuses result }
{
    cursor.word(b"raise ")?;
    Ok(WriteOp::Raise(next_number(cursor)?))
}

/// Reads the write that is next, beside an address of this kind.
pub fn next_part(
    alloc: Global,
    kind: Kind,
    cursor: &mut Cursor<u8>,
) -> Result<WriteOp, OrNoMemory<Refused>>
    ensures { Reads (spec.part_of kind cursor.old) result cursor.new }
{
    match kind {
        Kind::Bool => bool_part(cursor),
        Kind::Counter => counter_part(cursor),
        Kind::Text => text_part(alloc, cursor),
        Kind::Set => set_part(alloc, cursor),
        Kind::Hash => hash_part(alloc, cursor),
        Kind::List => list_part(alloc, cursor),
        Kind::Peak => peak_part(cursor),
    }
}
