//! Values.

ghost use Rattle.std.specs.Prelude.{◌≡◌, ◌++◌, OnOk};
ghost use Rattle.remote_wire.specs.AnswerSpelling.{value_parts};
ghost use Rattle.remote_wire.specs.AnswerForms.{IsValue};
ghost use Rattle.remote_wire.specs.AnswerReading.{value_of};
ghost use Rattle.record_code.specs.code.Reads.{Reads};

use crate::part::{Part, put_list, take_list};
use commit_file::Version;
use plain_data::Text;
use rdt_types::{Kind, TextList, Value};
use record_code::{
    Field, FieldError, byte_of_kind, read_i64, read_kind, read_map, write_byte, write_i64,
};
use std::alloc::{AllocError, Global};

/// What stands beside an element of a set: nothing.
impl Part for () {
    ghost use Rattle.record_code.specs.Spelling.{nothing_bytes};
    ghost use Rattle.record_code.specs.Fields.{nothing_at};
    ghost use Rattle.record_code.specs.Room.{Always};

    ghost spelling = { nothing_bytes };

    ghost has_form = { Always };

    ghost read_at = { nothing_at };

    fn put(&self, _out: &mut Text) -> Result<(), AllocError> {
        Ok(())
    }

    fn take(_alloc: Global, bytes: &[u8]) -> Result<((), &[u8]), FieldError> {
        Ok(((), bytes))
    }
}

/// One part and then another.
impl<A: Part, B: Part> Part for (A, B) {
    ghost use Rattle.record_code.specs.Spelling.{pair_bytes};
    ghost use Rattle.record_code.specs.Fields.{pair_at};
    ghost use Rattle.record_code.specs.Room.{Both};

    ghost spelling = { pair_bytes A.spelling B.spelling };

    ghost has_form = { Both A.has_form B.has_form };

    ghost read_at = { pair_at A.read_at B.read_at };

    fn put(&self, out: &mut Text) -> Result<(), AllocError> {
        self.0.put(out)?;
        self.1.put(out)
    }

    #[tactic(auto, unfolding(record_code::specs::Fields::pair_at))]
    fn take(alloc: Global, bytes: &[u8]) -> Result<((A, B), &[u8]), FieldError> {
        let (first, rest) = A::take(alloc, bytes)?;
        let (second, rest) = B::take(alloc, rest)?;
        Ok(((first, second), rest))
    }
}

/// Writes what a value is, behind the byte of its kind.
fn put_parts(out: &mut Text, value: &Value) -> Result<(), AllocError>
    ensures written { OnOk result (out.new ≡ out.old ++ value_parts value.now) }
    ensures form { OnOk result (IsValue value.now) }
{
    match value {
        Value::Bool(b) => b.write(out),
        Value::Counter(number) => write_i64(out, *number),
        Value::Text(text) => text.put(out),
        Value::Set(texts) => put_list(out, texts.as_slice()),
        Value::Hash(fields) => put_list(out, fields.as_slice()),
        Value::List(items) => put_list(out, items.as_slice()),
        Value::Peak(number) => write_i64(out, *number),
    }
}

/// Reads a value of a kind.
#[tactic(auto, unfolding(crate::specs::AnswerReading::value_of))]
fn take_parts(alloc: Global, kind: Kind, bytes: &[u8]) -> Result<(Value, &[u8]), FieldError>
    ensures { Reads (λ read. (read.0, read.1.now)) result (value_of kind bytes.now) }
{
    match kind {
        Kind::Bool => {
            let (b, rest) = bool::read(alloc, Version::Two, bytes)?;
            Ok((Value::Bool(b), rest))
        }
        Kind::Counter => {
            let (number, rest) = read_i64(bytes)?;
            Ok((Value::Counter(number), rest))
        }
        Kind::Text => {
            let (text, rest) = Text::take(alloc, bytes)?;
            Ok((Value::Text(text), rest))
        }
        Kind::Set => {
            let (texts, rest) = read_map::<()>(alloc, Version::Two, bytes)?;
            Ok((Value::Set(texts), rest))
        }
        Kind::Hash => {
            let (fields, rest) = read_map::<Text>(alloc, Version::Two, bytes)?;
            Ok((Value::Hash(fields), rest))
        }
        Kind::List => {
            let (items, rest) = take_list::<Text>(alloc, bytes)?;
            Ok((Value::List(TextList::from_vec(items)), rest))
        }
        Kind::Peak => {
            let (number, rest) = read_i64(bytes)?;
            Ok((Value::Peak(number), rest))
        }
    }
}

impl Part for Value {
    ghost use Rattle.remote_wire.specs.AnswerSpelling.{value_bytes};
    ghost use Rattle.remote_wire.specs.AnswerForms.{IsValue};
    ghost use Rattle.remote_wire.specs.AnswerReading.{value_at};

    ghost spelling = { value_bytes };

    ghost has_form = { IsValue };

    ghost read_at = { value_at };

    fn put(&self, out: &mut Text) -> Result<(), AllocError> {
        write_byte(out, byte_of_kind(self.kind()))?;
        put_parts(out, self)
    }

    #[tactic(auto, unfolding(crate::specs::AnswerReading::value_at))]
    fn take(alloc: Global, bytes: &[u8]) -> Result<(Value, &[u8]), FieldError> {
        let (kind, rest) = read_kind(Version::Two, bytes)?;
        take_parts(alloc, kind, rest)
    }
}
