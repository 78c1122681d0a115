//! Fields of deltas and of the addresses at which they are.

ghost use Rattle.std.specs.Prelude.{◌≡◌, ◌≢◌, ◌++◌, Option, OnOk, Err};
ghost use Rattle.record_code.specs.declared.field_error.FieldError.TheVariants as errors;
ghost use Rattle.record_code.specs.Spelling.{delta_byte, delta_parts};
ghost use Rattle.record_code.specs.Reading.{map_of, map_at, keyed_of, listed_of, mark_of, delta_of};
ghost use Rattle.record_code.specs.Room.{DeltaHasRoom};
ghost use Rattle.record_code.specs.code.Reads.{Reads};

use crate::field::{Field, read_list, write_list};
use crate::field_error::FieldError;
use crate::kinds::{byte_of_kind, read_kind};
use crate::numbers::{read_i64, read_tag, write_byte, write_i64};
use crate::tags::{DELTA_TAGS, DeltaTag};
use commit_file::Version;
use plain_data::{Text, TextMap, TextSet};
use rdt_types::{
    Address, Delta, HashDelta, KeyedDelta, Leaves, ListDelta, Mark, SetDelta, TextList,
};
use std::alloc::{AllocError, Global};

impl Field for Address {
    ghost use Rattle.record_code.specs.Spelling.{address_bytes};
    ghost use Rattle.record_code.specs.Reading.{address_at};
    ghost use Rattle.record_code.specs.Room.{Always};

    ghost spelling = { address_bytes };

    ghost has_room = { Always };

    ghost read_at = { address_at };

    fn write(&self, out: &mut Text) -> Result<(), AllocError> {
        write_byte(out, byte_of_kind(self.kind))?;
        self.key.write(out)
    }

    #[tactic(auto, unfolding(crate::specs::Reading::address_at))]
    fn read(alloc: Global, version: Version, bytes: &[u8]) -> Result<(Address, &[u8]), FieldError> {
        let (kind, rest) = read_kind(version, bytes)?;
        let (key, rest) = Text::read(alloc, version, rest)?;
        Ok((Address { kind, key }, rest))
    }
}

/// Reads a mark of a hash, by whether a text is put.
#[tactic(auto, unfolding(crate::specs::Reading::mark_of))]
fn read_mark(
    alloc: Global,
    version: Version,
    put: bool,
    bytes: &[u8],
) -> Result<(Mark, &[u8]), FieldError>
    ensures { Reads (λ read. (read.0, read.1.now)) result (mark_of put bytes.now) }
{
    if !put {
        return Ok((Mark::Removed, bytes));
    }
    let (text, rest) = Text::read(alloc, version, bytes)?;
    Ok((Mark::Put(text), rest))
}

impl Field for Mark {
    ghost use Rattle.record_code.specs.Spelling.{mark_bytes};
    ghost use Rattle.record_code.specs.Reading.{mark_at};
    ghost use Rattle.record_code.specs.Room.{Always};

    ghost spelling = { mark_bytes };

    ghost has_room = { Always };

    ghost read_at = { λ version. mark_at };

    fn write(&self, out: &mut Text) -> Result<(), AllocError> {
        match self {
            Mark::Put(text) => {
                true.write(out)?;
                text.write(out)
            }
            Mark::Removed => false.write(out),
        }
    }

    #[tactic(auto, unfolding(crate::specs::Reading::mark_at))]
    fn read(alloc: Global, version: Version, bytes: &[u8]) -> Result<(Mark, &[u8]), FieldError> {
        let (put, rest) = bool::read(alloc, version, bytes)?;
        read_mark(alloc, version, put, rest)
    }
}

/// The map of texts with their marks, where the texts rise strictly.
fn in_order<M: Drop>(pairs: Vec<(Text, M)>) -> Result<TextMap<M>, FieldError>
    ensures read { Reads (λ marks. marks) result (map_of pairs.items) }
    ensures told { result ≢ Err errors.NoMemory }
{
    match TextMap::try_from_vec(pairs) {
        Some(marks) => Ok(marks),
        None => Err(FieldError::Malformed),
    }
}

/// Reads texts that rise strictly, each with its mark.
#[tactic(auto, unfolding(crate::specs::Reading::map_at))]
pub fn read_map<M: Field>(
    alloc: Global,
    version: Version,
    bytes: &[u8],
) -> Result<(TextMap<M>, &[u8]), FieldError>
    ensures { Reads (λ read. (read.0, read.1.now)) result (map_at (M.read_at version) bytes.now) }
{
    let (pairs, rest) = read_list::<(Text, M)>(alloc, version, bytes)?;
    Ok((in_order(pairs)?, rest))
}

/// The change of a set or a hash of these parts.
fn keyed<M: Leaves>(cleared: bool, marks: TextMap<M>) -> Result<KeyedDelta<M>, FieldError>
    ensures read { Reads (λ d. d) result (keyed_of M.left cleared marks) }
    ensures told { result ≢ Err errors.NoMemory }
{
    match KeyedDelta::from_parts(cleared, marks) {
        Some(d) => Ok(d),
        None => Err(FieldError::Malformed),
    }
}

impl<M: Field + Leaves> Field for KeyedDelta<M> {
    ghost use Rattle.record_code.specs.Spelling.{keyed_bytes};
    ghost use Rattle.record_code.specs.Reading.{keyed_at};
    ghost use Rattle.record_code.specs.Room.{KeyedHasRoom};

    ghost spelling = { keyed_bytes M.spelling };

    ghost has_room = { KeyedHasRoom };

    ghost read_at = { λ version. keyed_at M.left (M.read_at version) };

    fn write(&self, out: &mut Text) -> Result<(), AllocError> {
        self.cleared().write(out)?;
        write_list(out, self.marks().as_slice())
    }

    #[tactic(auto, unfolding(crate::specs::Reading::keyed_at))]
    fn read(
        alloc: Global,
        version: Version,
        bytes: &[u8],
    ) -> Result<(KeyedDelta<M>, &[u8]), FieldError> {
        let (cleared, rest) = bool::read(alloc, version, bytes)?;
        let (marks, rest) = read_map(alloc, version, rest)?;
        Ok((keyed(cleared, marks)?, rest))
    }
}

/// The change of a list of these parts.
fn listed(cleared: bool, removed: TextSet, pushed: TextList) -> Result<ListDelta, FieldError>
    ensures read { Reads (λ d. d) result (listed_of cleared removed pushed) }
    ensures told { result ≢ Err errors.NoMemory }
{
    match ListDelta::from_parts(cleared, removed, pushed) {
        Some(d) => Ok(d),
        None => Err(FieldError::Malformed),
    }
}

impl Field for ListDelta {
    ghost use Rattle.record_code.specs.Spelling.{listed_bytes};
    ghost use Rattle.record_code.specs.Reading.{listed_at};
    ghost use Rattle.record_code.specs.Room.{ListedHasRoom};

    ghost spelling = { listed_bytes };

    ghost has_room = { ListedHasRoom };

    ghost read_at = { λ version. listed_at };

    fn write(&self, out: &mut Text) -> Result<(), AllocError> {
        self.cleared().write(out)?;
        write_list(out, self.removed().as_slice())?;
        write_list(out, self.pushed().as_slice())
    }

    #[tactic(auto, unfolding(crate::specs::Reading::listed_at))]
    fn read(
        alloc: Global,
        version: Version,
        bytes: &[u8],
    ) -> Result<(ListDelta, &[u8]), FieldError> {
        let (cleared, rest) = bool::read(alloc, version, bytes)?;
        let (removed, rest) = read_map(alloc, version, rest)?;
        let (pushed, rest) = read_list(alloc, version, rest)?;
        Ok((listed(cleared, removed, TextList::from_vec(pushed))?, rest))
    }
}

/// Reads a delta of a form.
#[tactic(auto, unfolding(crate::specs::Reading::delta_of))]
fn read_delta(
    alloc: Global,
    version: Version,
    tag: DeltaTag,
    bytes: &[u8],
) -> Result<(Delta, &[u8]), FieldError>
    ensures { Reads (λ read. (read.0, read.1.now)) result (delta_of tag bytes.now) }
{
    match tag {
        DeltaTag::PutBool => {
            let (b, rest) = bool::read(alloc, version, bytes)?;
            Ok((Delta::PutBool(b), rest))
        }
        DeltaTag::PutCounter => {
            let (number, rest) = read_i64(bytes)?;
            Ok((Delta::PutCounter(number), rest))
        }
        DeltaTag::AddCounter => {
            let (number, rest) = read_i64(bytes)?;
            Ok((Delta::AddCounter(number), rest))
        }
        DeltaTag::PutText => {
            let (text, rest) = Text::read(alloc, version, bytes)?;
            Ok((Delta::PutText(text), rest))
        }
        DeltaTag::Set => {
            let (d, rest) = SetDelta::read(alloc, version, bytes)?;
            Ok((Delta::Set(d), rest))
        }
        DeltaTag::Hash => {
            let (d, rest) = HashDelta::read(alloc, version, bytes)?;
            Ok((Delta::Hash(d), rest))
        }
        DeltaTag::List => {
            let (d, rest) = ListDelta::read(alloc, version, bytes)?;
            Ok((Delta::List(d), rest))
        }
        DeltaTag::Raise => {
            let (number, rest) = read_i64(bytes)?;
            Ok((Delta::Raise(number), rest))
        }
    }
}

/// The byte of a delta's form.
fn byte_of_form(delta: &Delta) -> u8
    ensures { result ≡ delta_byte delta.now }
{
    match delta {
        Delta::PutBool(_) => 0,
        Delta::PutCounter(_) => 1,
        Delta::AddCounter(_) => 2,
        Delta::PutText(_) => 3,
        Delta::Set(_) => 4,
        Delta::Hash(_) => 5,
        Delta::List(_) => 6,
        Delta::Raise(_) => 7,
    }
}

/// Writes what a delta says.
fn write_parts(out: &mut Text, delta: &Delta) -> Result<(), AllocError>
    ensures written { OnOk result (out.new ≡ out.old ++ delta_parts delta.now) }
    ensures room { OnOk result (DeltaHasRoom delta.now) }
{
    match delta {
        Delta::PutBool(b) => b.write(out),
        Delta::PutCounter(number) => write_i64(out, *number),
        Delta::AddCounter(number) => write_i64(out, *number),
        Delta::PutText(text) => text.write(out),
        Delta::Set(d) => d.write(out),
        Delta::Hash(d) => d.write(out),
        Delta::List(d) => d.write(out),
        Delta::Raise(number) => write_i64(out, *number),
    }
}

impl Field for Delta {
    ghost use Rattle.record_code.specs.Spelling.{delta_bytes};
    ghost use Rattle.record_code.specs.Reading.{delta_at};
    ghost use Rattle.record_code.specs.Room.{DeltaHasRoom};

    ghost spelling = { delta_bytes };

    ghost has_room = { DeltaHasRoom };

    ghost read_at = { λ version. delta_at };

    fn write(&self, out: &mut Text) -> Result<(), AllocError> {
        write_byte(out, byte_of_form(self))?;
        write_parts(out, self)
    }

    #[tactic(auto, unfolding(crate::specs::Reading::delta_at))]
    fn read(alloc: Global, version: Version, bytes: &[u8]) -> Result<(Delta, &[u8]), FieldError> {
        let (tag, rest) = read_tag(&DELTA_TAGS, bytes)?;
        read_delta(alloc, version, tag, rest)
    }
}
