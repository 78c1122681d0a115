//! Fields of outcomes and of what bodies emit.

ghost use Rattle.std.specs.Prelude.{◌≡◌, ◌++◌, OnOk};
ghost use Rattle.record_code.specs.Spelling.{item_byte, item_parts, outcome_byte, outcome_parts};
ghost use Rattle.record_code.specs.Reading.{item_of, outcome_of};
ghost use Rattle.record_code.specs.Room.{ItemHasRoom, OutcomeHasRoom};
ghost use Rattle.record_code.specs.code.Reads.{Reads};

use crate::field::{Field, read_list, write_list};
use crate::field_error::FieldError;
use crate::numbers::{read_i64, read_tag, write_byte, write_i64};
use crate::tags::{ITEM_TAGS, ItemTag, OUTCOME_TAGS, OutcomeTag};
use commit_file::Version;
use plain_data::Text;
use rdt_types::{Item, ItemList, Outcome, TextList};
use std::alloc::{AllocError, Global};

/// The byte of an emitted value's type.
fn byte_of_type(item: &Item) -> u8
    ensures { result ≡ item_byte item.now }
{
    match item {
        Item::Int(_) => 0,
        Item::Bool(_) => 1,
        Item::Text(_) => 2,
        Item::Texts(_) => 3,
    }
}

/// Writes an emitted value behind the byte of its type.
fn write_value(out: &mut Text, item: &Item) -> Result<(), AllocError>
    ensures written { OnOk result (out.new ≡ out.old ++ item_parts item.now) }
    ensures room { OnOk result (ItemHasRoom item.now) }
{
    match item {
        Item::Int(number) => write_i64(out, *number),
        Item::Bool(b) => b.write(out),
        Item::Text(text) => text.write(out),
        Item::Texts(texts) => write_list(out, texts.as_slice()),
    }
}

/// Reads an emitted value of a type.
#[tactic(auto, unfolding(crate::specs::Reading::item_of))]
fn read_value(
    alloc: Global,
    version: Version,
    tag: ItemTag,
    bytes: &[u8],
) -> Result<(Item, &[u8]), FieldError>
    ensures { Reads (λ read. (read.0, read.1.now)) result (item_of tag bytes.now) }
{
    match tag {
        ItemTag::Int => {
            let (number, rest) = read_i64(bytes)?;
            Ok((Item::Int(number), rest))
        }
        ItemTag::Bool => {
            let (b, rest) = bool::read(alloc, version, bytes)?;
            Ok((Item::Bool(b), rest))
        }
        ItemTag::Text => {
            let (text, rest) = Text::read(alloc, version, bytes)?;
            Ok((Item::Text(text), rest))
        }
        ItemTag::Texts => {
            let (texts, rest) = read_list(alloc, version, bytes)?;
            Ok((Item::Texts(TextList::from_vec(texts)), rest))
        }
    }
}

impl Field for Item {
    ghost use Rattle.record_code.specs.Spelling.{item_bytes};
    ghost use Rattle.record_code.specs.Reading.{item_at};
    ghost use Rattle.record_code.specs.Room.{ItemHasRoom};

    ghost spelling = { item_bytes };

    ghost has_room = { ItemHasRoom };

    ghost read_at = { λ version. item_at };

    fn write(&self, out: &mut Text) -> Result<(), AllocError> {
        write_byte(out, byte_of_type(self))?;
        write_value(out, self)
    }

    #[tactic(auto, unfolding(crate::specs::Reading::item_at))]
    fn read(alloc: Global, version: Version, bytes: &[u8]) -> Result<(Item, &[u8]), FieldError> {
        let (tag, rest) = read_tag(&ITEM_TAGS, bytes)?;
        read_value(alloc, version, tag, rest)
    }
}

/// The byte of how a body ended.
fn byte_of_end(outcome: &Outcome) -> u8
    ensures { result ≡ outcome_byte outcome.now }
{
    match outcome {
        Outcome::Ok(_) => 0,
        Outcome::Fail(_) => 1,
        Outcome::Spent => 2,
        Outcome::Big => 3,
    }
}

/// Writes what was emitted, or the reason for which the body failed.
fn write_end(out: &mut Text, outcome: &Outcome) -> Result<(), AllocError>
    ensures written { OnOk result (out.new ≡ out.old ++ outcome_parts outcome.now) }
    ensures room { OnOk result (OutcomeHasRoom outcome.now) }
{
    match outcome {
        Outcome::Ok(items) => write_list(out, items.as_slice()),
        Outcome::Fail(reason) => reason.write(out),
        Outcome::Spent => Ok(()),
        Outcome::Big => Ok(()),
    }
}

/// Reads an outcome by how the body ended.
#[tactic(auto, unfolding(crate::specs::Reading::outcome_of))]
fn read_end(
    alloc: Global,
    version: Version,
    tag: OutcomeTag,
    bytes: &[u8],
) -> Result<(Outcome, &[u8]), FieldError>
    ensures { Reads (λ read. (read.0, read.1.now)) result (outcome_of tag bytes.now) }
{
    match tag {
        OutcomeTag::Ok => {
            let (items, rest) = read_list(alloc, version, bytes)?;
            Ok((Outcome::Ok(ItemList::from_vec(items)), rest))
        }
        OutcomeTag::Fail => {
            let (reason, rest) = Text::read(alloc, version, bytes)?;
            Ok((Outcome::Fail(reason), rest))
        }
        OutcomeTag::Spent => Ok((Outcome::Spent, bytes)),
        OutcomeTag::Big => Ok((Outcome::Big, bytes)),
    }
}

impl Field for Outcome {
    ghost use Rattle.record_code.specs.Spelling.{outcome_bytes};
    ghost use Rattle.record_code.specs.Reading.{outcome_at};
    ghost use Rattle.record_code.specs.Room.{OutcomeHasRoom};

    ghost spelling = { outcome_bytes };

    ghost has_room = { OutcomeHasRoom };

    ghost read_at = { λ version. outcome_at };

    fn write(&self, out: &mut Text) -> Result<(), AllocError> {
        write_byte(out, byte_of_end(self))?;
        write_end(out, self)
    }

    #[tactic(auto, unfolding(crate::specs::Reading::outcome_at))]
    fn read(alloc: Global, version: Version, bytes: &[u8]) -> Result<(Outcome, &[u8]), FieldError> {
        let (tag, rest) = read_tag(&OUTCOME_TAGS, bytes)?;
        read_end(alloc, version, tag, rest)
    }
}
