//! Values that a body emits, and how bodies end.

ghost use Rattle.std.specs.Prelude.{◌≡◌};
ghost use Rattle.predictive_parsing.specs.Reads.{Reads, OnlyRefuses};
ghost use Rattle.dtext.specs.code.Reading as spec;

use crate::number::{begins_number, next_number};
use crate::text::next_text;
use crate::value::{texts, truth};
use plain_data::OrNoMemory;
use predictive_parsing::{Cursor, Reading, Refused, read_many};
use rdt_types::{Item, Outcome};
use std::alloc::Global;

/// Reads the value that is next: of which type it is, the byte ahead tells.
#[tactic(auto, unfolding(crate::specs::code::Reading::item))]
pub fn next_item(alloc: Global, cursor: &mut Cursor<u8>) -> Result<Item, OrNoMemory<Refused>>
    ensures { Reads (spec.item cursor.old) result cursor.new }
{
    if begins_number(cursor) {
        Ok(Item::Int(next_number(cursor)?))
    } else if cursor.sees_byte(b'"') {
        Ok(Item::Text(next_text(alloc, cursor)?))
    } else if cursor.sees_byte(b'[') {
        Ok(Item::Texts(texts(alloc, cursor)?))
    } else {
        Ok(Item::Bool(truth(cursor)?))
    }
}

#[tactic(auto, unfolding(crate::specs::code::Reading::after_space))]
fn after_space(alloc: Global, cursor: &mut Cursor<u8>) -> Result<Item, OrNoMemory<Refused>>
    ensures { Reads (spec.after_space cursor.old) result cursor.new }
{
    cursor.byte(b' ')?;
    next_item(alloc, cursor)
}

/// Values behind spaces.
struct Emitted;

impl Reading<u8, Item> for Emitted {
    ghost use Rattle.predictive_parsing.specs.Bytes.{sees};

    ghost starts = { λ _. sees 32 };

    ghost reader = { λ _. spec.after_space };

    fn begins(&self, cursor: &Cursor<u8>) -> bool {
        cursor.sees_byte(b' ')
    }

    fn read(&self, alloc: Global, cursor: &mut Cursor<u8>) -> Result<Item, OrNoMemory<Refused>> {
        after_space(alloc, cursor)
    }
}

#[tactic(auto, unfolding(crate::specs::code::Reading::ran, crate::specs::code::Reading::emitted))]
fn ran(alloc: Global, cursor: &mut Cursor<u8>) -> Result<Outcome, OrNoMemory<Refused>>
    ensures { Reads (spec.ran cursor.old) result cursor.new }
{
    cursor.word(b"ok")?;
    Ok(Outcome::Ok(read_many(alloc, &Emitted, cursor)?))
}

#[tactic(auto, unfolding(crate::specs::code::Reading::failed))]
fn failed(alloc: Global, cursor: &mut Cursor<u8>) -> Result<Outcome, OrNoMemory<Refused>>
    ensures { Reads (spec.failed cursor.old) result cursor.new }
{
    cursor.word(b"fail ")?;
    Ok(Outcome::Fail(next_text(alloc, cursor)?))
}

fn spent(cursor: &mut Cursor<u8>) -> Result<Outcome, OrNoMemory<Refused>>
    ensures read { Reads (spec.spent cursor.old) result cursor.new }
    ensures refusal { OnlyRefuses result }
{
    cursor.word(b"spent")?;
    Ok(Outcome::Spent)
}

fn big(cursor: &mut Cursor<u8>) -> Result<Outcome, OrNoMemory<Refused>>
    ensures read { Reads (spec.big cursor.old) result cursor.new }
    ensures refusal { OnlyRefuses result }
{
    cursor.word(b"big")?;
    Ok(Outcome::Big)
}

/// Reads the outcome that is next: how a body ended, the byte ahead tells.
#[tactic(auto, unfolding(crate::specs::code::Reading::outcome))]
pub fn next_outcome(alloc: Global, cursor: &mut Cursor<u8>) -> Result<Outcome, OrNoMemory<Refused>>
    ensures { Reads (spec.outcome cursor.old) result cursor.new }
{
    if cursor.sees_byte(b'o') {
        ran(alloc, cursor)
    } else if cursor.sees_byte(b'f') {
        failed(alloc, cursor)
    } else if cursor.sees_byte(b's') {
        spent(cursor)
    } else {
        big(cursor)
    }
}
