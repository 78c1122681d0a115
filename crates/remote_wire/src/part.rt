//! The parts of requests and answers, and lists of such parts.

ghost use Rattle.std.specs.Prelude.{◌≡◌, ◌≢◌, ◌<◌, ◌≤◌, ◌++◌, ℕ, List, Option, Err, OnOk, OnErr, length};
ghost use Rattle.std.specs.List.{flat_map, AllByRecursion};
ghost use Rattle.record_code.specs.declared.field_error.FieldError.TheVariants as errors;
ghost use Rattle.record_code.specs.Spelling.{list_bytes};
ghost use Rattle.record_code.specs.Fields.{each_at, list_at};
ghost use Rattle.record_code.specs.Room.{HaveRoom};
ghost use Rattle.record_code.specs.code.Reads.{Reads};
ghost use Rattle.remote_wire.specs.Spelling.{byte_bytes, long_bytes};
ghost use Rattle.remote_wire.specs.Forms.{IsOneByte, IsEightBytes};
ghost use Rattle.remote_wire.specs.Reading.{byte_at};

use commit_file::Version;
use plain_data::Text;
use rdt_types::Address;
use record_code::{
    Field, FieldError, read_text, read_u32, write_byte, write_count, write_text, write_u64,
};
use std::alloc::{AllocError, Global};
use txn_lang::TEXT_LIMIT;

/// What stands in a request or an answer, and has one spelling there.
pub trait Part: Drop {
    /// The bytes of the part.
    ghost spelling: { Self → List ℕ };

    /// What has a spelling: its texts aren't longer than texts may be, and its numbers and lengths have their widths.
    ghost has_form: { Self → Type 0 };

    /// What is read from the front of bytes, and the bytes behind it.
    ghost read_at: { List ℕ → Option (Self × List ℕ) };

    /// Writes the part. What has no spelling is answered as want of memory.
    fn put(&self, out: &mut Text) -> Result<(), AllocError>
        ensures written { OnOk result (out.new ≡ out.old ++ spelling self.now) }
        ensures form { OnOk result (has_form self.now) };

    /// Reads the part from the front of bytes.
    fn take(alloc: Global, bytes: &[u8]) -> Result<(Self, &[u8]), FieldError>
        ensures { Reads (λ read. (read.0, read.1.now)) result (read_at bytes.now) };
}

// ---- numbers

/// Writes a number of one byte.
pub fn put_byte(out: &mut Text, number: u8) -> Result<(), AllocError>
    ensures written { OnOk result (out.new ≡ out.old ++ byte_bytes number) }
    ensures form { IsOneByte number }
{
    write_byte(out, number)
}

/// Writes a number of eight bytes.
pub fn put_long(out: &mut Text, number: u64) -> Result<(), AllocError>
    ensures written { OnOk result (out.new ≡ out.old ++ long_bytes number) }
    ensures form { IsEightBytes number }
{
    write_u64(out, number)
}

/// Reads a number of one byte.
#[tactic(auto, unfolding(crate::specs::Reading::byte_at))]
pub fn take_byte(bytes: &[u8]) -> Result<(u8, &[u8]), FieldError>
    ensures read { Reads (λ read. (read.0, read.1.now)) result (byte_at bytes.now) }
    ensures told { result ≢ Err errors.NoMemory }
{
    match bytes {
        [byte, rest @ ..] => Ok((*byte, rest)),
        [] => Err(FieldError::Malformed),
    }
}

// ---- texts and addresses

/// Whether a text is no longer than it may be. One that is has no spelling; and no other is told as that.
pub fn within(text: &[u8], most: usize) -> Result<(), AllocError>
    ensures short { OnOk result (length text.now ≤ most) }
    ensures longer { OnErr result (most < length text.now) }
{
    if text.len() <= most {
        Ok(())
    } else {
        Err(AllocError)
    }
}

/// A text, which is no longer than texts may be.
impl Part for Text {
    ghost use Rattle.record_code.specs.Spelling.{text_bytes};
    ghost use Rattle.record_code.specs.Reading.{short_at};
    ghost use Rattle.record_code.specs.Forms.{IsShort};

    ghost spelling = { text_bytes };

    ghost has_form = { IsShort };

    ghost read_at = { short_at };

    fn put(&self, out: &mut Text) -> Result<(), AllocError> {
        within(self.as_slice(), TEXT_LIMIT)?;
        write_text(out, self.as_slice())
    }

    fn take(alloc: Global, bytes: &[u8]) -> Result<(Text, &[u8]), FieldError> {
        read_text(alloc, TEXT_LIMIT, bytes)
    }
}

/// An address, of any kind.
impl Part for Address {
    ghost use Rattle.record_code.specs.Spelling.{address_bytes};
    ghost use Rattle.remote_wire.specs.Forms.{HasShortKey};
    ghost use Rattle.remote_wire.specs.Reading.{place_at};

    ghost spelling = { address_bytes };

    ghost has_form = { HasShortKey };

    ghost read_at = { place_at };

    fn put(&self, out: &mut Text) -> Result<(), AllocError> {
        within(self.key.as_slice(), TEXT_LIMIT)?;
        self.write(out)
    }

    fn take(alloc: Global, bytes: &[u8]) -> Result<(Address, &[u8]), FieldError> {
        Address::read(alloc, Version::Two, bytes)
    }
}

// ---- lists

/// Writes parts one behind another.
fn put_each<P: Part>(out: &mut Text, parts: &[P]) -> Result<(), AllocError>
    ensures written { OnOk result (out.new ≡ out.old ++ flat_map P.spelling parts.now) }
    ensures form { OnOk result (AllByRecursion P.has_form parts.now) }
{
    for part in parts {
        part.put(out)?;
    }
    Ok(())
}

/// Writes a list: how many there are, and each.
pub fn put_list<P: Part>(out: &mut Text, parts: &[P]) -> Result<(), AllocError>
    ensures written { OnOk result (out.new ≡ out.old ++ list_bytes P.spelling parts.now) }
    ensures form { OnOk result (HaveRoom P.has_form parts.now) }
{
    write_count(out, parts.len())?;
    put_each(out, parts)
}

/// Reads so many parts one behind another. Memory is taken for those that were read alone.
fn take_each<P: Part>(
    alloc: Global,
    count: u32,
    bytes: &[u8],
) -> Result<(Vec<P>, &[u8]), FieldError>
    ensures { Reads (λ read. (read.0.items, read.1.now)) result (each_at P.read_at count bytes.now) }
{
    let mut parts = Vec::new(alloc);
    let mut rest = bytes;
    for _ in 0..count {
        let (part, behind) = P::take(alloc, rest)?;
        parts.push(part)?;
        rest = behind;
    }
    Ok((parts, rest))
}

/// Reads a list.
#[tactic(auto, unfolding(record_code::specs::Fields::list_at))]
pub fn take_list<P: Part>(alloc: Global, bytes: &[u8]) -> Result<(Vec<P>, &[u8]), FieldError>
    ensures { Reads (λ read. (read.0.items, read.1.now)) result (list_at P.read_at bytes.now) }
{
    let (count, rest) = read_u32(bytes)?;
    take_each(alloc, count, rest)
}
