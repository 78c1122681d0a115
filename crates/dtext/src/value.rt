//! Truth values, kinds and addresses, and texts in brackets.

ghost use Rattle.std.specs.Prelude.{◌≡◌};
ghost use Rattle.predictive_parsing.specs.Reading.{next};
ghost use Rattle.dtext.specs.Printing.{printed_bool};
ghost use Rattle.predictive_parsing.specs.Reads.{Reads, OnlyRefuses};
ghost use Rattle.dtext.specs.code.Reading as spec;

use crate::text::next_text;
use plain_data::{OrNoMemory, Text};
use predictive_parsing::{Cursor, Reading, Refused, read_many};
use rdt_types::{Address, Kind, TextList};
use std::alloc::Global;

/// The word of a truth value.
pub(crate) fn bool_word(value: bool) -> &'static [u8]
    ensures { result.now ≡ printed_bool value }
{
    if value {
        b"true".as_slice()
    } else {
        b"false".as_slice()
    }
}

/// A truth value: which one, the byte ahead tells.
#[tactic(auto, unfolding(crate::specs::code::Reading::bool))]
pub(crate) fn truth(cursor: &mut Cursor<u8>) -> Result<bool, OrNoMemory<Refused>>
    ensures read { Reads (spec.bool cursor.old) result cursor.new }
    ensures refusal { OnlyRefuses result }
{
    let value = cursor.sees_byte(b't');
    cursor.word(bool_word(value))?;
    Ok(value)
}

/// The kind whose word a byte begins; where it begins none, any, whose word is then refused.
fn kind_by(byte: u8) -> Kind
    ensures { result ≡ spec.kind_by byte }
{
    match byte {
        b'b' => Kind::Bool,
        b'c' => Kind::Counter,
        b't' => Kind::Text,
        b's' => Kind::Set,
        b'h' => Kind::Hash,
        b'p' => Kind::Peak,
        _ => Kind::List,
    }
}

fn kind_ahead(cursor: &Cursor<u8>) -> Kind
    ensures { result ≡ spec.kind_ahead (next cursor.now) }
{
    match cursor.peek() {
        Some(byte) => kind_by(*byte),
        None => Kind::List,
    }
}

/// The word of a kind.
#[tactic(auto, unfolding(crate::specs::code::Reading::kind))]
fn kind(cursor: &mut Cursor<u8>) -> Result<Kind, OrNoMemory<Refused>>
    ensures read { Reads (spec.kind cursor.old) result cursor.new }
    ensures refusal { OnlyRefuses result }
{
    let kind = kind_ahead(cursor);
    cursor.word(kind.word())?;
    Ok(kind)
}

/// Reads the address that is next: a kind, and a key in parentheses.
#[tactic(auto, unfolding(crate::specs::code::Reading::address))]
pub fn next_address(alloc: Global, cursor: &mut Cursor<u8>) -> Result<Address, OrNoMemory<Refused>>
    ensures { Reads (spec.address cursor.old) result cursor.new }
{
    let kind = kind(cursor)?;
    cursor.byte(b'(')?;
    let key = next_text(alloc, cursor)?;
    cursor.byte(b')')?;
    Ok(Address { kind, key })
}

#[tactic(auto, unfolding(crate::specs::code::Reading::after_comma))]
fn after_comma(alloc: Global, cursor: &mut Cursor<u8>) -> Result<Text, OrNoMemory<Refused>>
    ensures { Reads (spec.after_comma cursor.old) result cursor.new }
{
    cursor.byte(b',')?;
    next_text(alloc, cursor)
}

/// Texts behind commas.
struct MoreTexts;

impl Reading<u8, Text> for MoreTexts {
    ghost use Rattle.predictive_parsing.specs.Bytes.{sees};

    ghost starts = { λ _. sees 44 };

    ghost reader = { λ _. spec.after_comma };

    fn begins(&self, cursor: &Cursor<u8>) -> bool {
        cursor.sees_byte(b',')
    }

    fn read(&self, alloc: Global, cursor: &mut Cursor<u8>) -> Result<Text, OrNoMemory<Refused>> {
        after_comma(alloc, cursor)
    }
}

/// One text and as many others as there are.
#[tactic(auto, unfolding(crate::specs::code::Reading::some_texts, crate::specs::code::Reading::more_texts, predictive_parsing::specs::Reading::list))]
fn some_texts(alloc: Global, cursor: &mut Cursor<u8>) -> Result<TextList, OrNoMemory<Refused>>
    ensures { Reads (spec.some_texts cursor.old) result cursor.new }
{
    let first = next_text(alloc, cursor)?;
    let mut found = read_many(alloc, &MoreTexts, cursor)?;
    found.insert(0, first)?;
    Ok(found)
}

/// Some texts, or none.
fn elements(alloc: Global, cursor: &mut Cursor<u8>) -> Result<TextList, OrNoMemory<Refused>>
    ensures { Reads (spec.elements cursor.old) result cursor.new }
{
    if cursor.sees_byte(b'"') {
        some_texts(alloc, cursor)
    } else {
        Ok(TextList::new(alloc))
    }
}

/// Texts in brackets.
#[tactic(auto, unfolding(crate::specs::code::Reading::texts))]
pub(crate) fn texts(alloc: Global, cursor: &mut Cursor<u8>) -> Result<TextList, OrNoMemory<Refused>>
    ensures { Reads (spec.texts cursor.old) result cursor.new }
{
    cursor.byte(b'[')?;
    let found = elements(alloc, cursor)?;
    cursor.byte(b']')?;
    Ok(found)
}
