//! Writes, as a witness names them.

ghost use Rattle.std.specs.Prelude.{◌≡◌, ◌++◌, OnOk};
ghost use Rattle.remote_wire.specs.AnswerSpelling.{op_byte, op_parts};
ghost use Rattle.remote_wire.specs.AnswerForms.{IsWrite};
ghost use Rattle.remote_wire.specs.AnswerReading.{op_of};
ghost use Rattle.record_code.specs.code.Reads.{Reads};

use crate::answer_tags::{WRITE_TAGS, WriteTag};
use crate::part::Part;
use commit_file::Version;
use plain_data::Text;
use rdt_types::WriteOp;
use record_code::{Field, FieldError, read_i64, read_tag, write_byte, write_i64};
use std::alloc::{AllocError, Global};

/// The byte of a write's form.
fn byte_of_form(write: &WriteOp) -> u8
    ensures { result ≡ op_byte write.now }
{
    match write {
        WriteOp::PutBool(_) => 0,
        WriteOp::PutCounter(_) => 1,
        WriteOp::AddCounter(_) => 2,
        WriteOp::PutText(_) => 3,
        WriteOp::SetAdd(_) => 4,
        WriteOp::SetRemove(_) => 5,
        WriteOp::SetClear => 6,
        WriteOp::HashPut(_, _) => 7,
        WriteOp::HashRemove(_) => 8,
        WriteOp::HashClear => 9,
        WriteOp::ListPush(_) => 10,
        WriteOp::ListRemove(_) => 11,
        WriteOp::ListClear => 12,
        WriteOp::Raise(_) => 13,
    }
}

/// Writes what a write is made of.
fn put_parts(out: &mut Text, write: &WriteOp) -> Result<(), AllocError>
    ensures written { OnOk result (out.new ≡ out.old ++ op_parts write.now) }
    ensures form { OnOk result (IsWrite write.now) }
{
    match write {
        WriteOp::PutBool(b) => b.write(out),
        WriteOp::PutCounter(number) => write_i64(out, *number),
        WriteOp::AddCounter(number) => write_i64(out, *number),
        WriteOp::PutText(text) => text.put(out),
        WriteOp::SetAdd(element) => element.put(out),
        WriteOp::SetRemove(element) => element.put(out),
        WriteOp::HashPut(field, text) => {
            field.put(out)?;
            text.put(out)
        }
        WriteOp::HashRemove(field) => field.put(out),
        WriteOp::ListPush(item) => item.put(out),
        WriteOp::ListRemove(item) => item.put(out),
        WriteOp::Raise(number) => write_i64(out, *number),
        WriteOp::SetClear | WriteOp::HashClear | WriteOp::ListClear => Ok(()),
    }
}

/// Reads a write of a form.
#[tactic(auto, unfolding(crate::specs::AnswerReading::op_of, record_code::specs::Fields::pair_at))]
fn take_parts(alloc: Global, tag: WriteTag, bytes: &[u8]) -> Result<(WriteOp, &[u8]), FieldError>
    ensures { Reads (λ read. (read.0, read.1.now)) result (op_of tag bytes.now) }
{
    match tag {
        WriteTag::PutBool => {
            let (b, rest) = bool::read(alloc, Version::Two, bytes)?;
            Ok((WriteOp::PutBool(b), rest))
        }
        WriteTag::PutCounter => {
            let (number, rest) = read_i64(bytes)?;
            Ok((WriteOp::PutCounter(number), rest))
        }
        WriteTag::AddCounter => {
            let (number, rest) = read_i64(bytes)?;
            Ok((WriteOp::AddCounter(number), rest))
        }
        WriteTag::PutText => {
            let (text, rest) = Text::take(alloc, bytes)?;
            Ok((WriteOp::PutText(text), rest))
        }
        WriteTag::SetAdd => {
            let (element, rest) = Text::take(alloc, bytes)?;
            Ok((WriteOp::SetAdd(element), rest))
        }
        WriteTag::SetRemove => {
            let (element, rest) = Text::take(alloc, bytes)?;
            Ok((WriteOp::SetRemove(element), rest))
        }
        WriteTag::SetClear => Ok((WriteOp::SetClear, bytes)),
        WriteTag::HashPut => {
            let (field, rest) = Text::take(alloc, bytes)?;
            let (text, rest) = Text::take(alloc, rest)?;
            Ok((WriteOp::HashPut(field, text), rest))
        }
        WriteTag::HashRemove => {
            let (field, rest) = Text::take(alloc, bytes)?;
            Ok((WriteOp::HashRemove(field), rest))
        }
        WriteTag::HashClear => Ok((WriteOp::HashClear, bytes)),
        WriteTag::ListPush => {
            let (item, rest) = Text::take(alloc, bytes)?;
            Ok((WriteOp::ListPush(item), rest))
        }
        WriteTag::ListRemove => {
            let (item, rest) = Text::take(alloc, bytes)?;
            Ok((WriteOp::ListRemove(item), rest))
        }
        WriteTag::ListClear => Ok((WriteOp::ListClear, bytes)),
        WriteTag::Raise => {
            let (number, rest) = read_i64(bytes)?;
            Ok((WriteOp::Raise(number), rest))
        }
    }
}

impl Part for WriteOp {
    ghost use Rattle.remote_wire.specs.AnswerSpelling.{op_bytes};
    ghost use Rattle.remote_wire.specs.AnswerForms.{IsWrite};
    ghost use Rattle.remote_wire.specs.AnswerReading.{op_at};

    ghost spelling = { op_bytes };

    ghost has_form = { IsWrite };

    ghost read_at = { op_at };

    fn put(&self, out: &mut Text) -> Result<(), AllocError> {
        write_byte(out, byte_of_form(self))?;
        put_parts(out, self)
    }

    #[tactic(auto, unfolding(crate::specs::AnswerReading::op_at))]
    fn take(alloc: Global, bytes: &[u8]) -> Result<(WriteOp, &[u8]), FieldError> {
        let (tag, rest) = read_tag(&WRITE_TAGS, bytes)?;
        take_parts(alloc, tag, rest)
    }
}
