//! What is written as a field and read from one, and lists of such things.

ghost use Rattle.std.specs.Prelude.{◌≡◌, ◌++◌, ℕ, List, Option, OnOk};
ghost use Rattle.std.specs.Int.{w32, to_be_bytes};
ghost use Rattle.std.specs.List.{flat_map, AllByRecursion};
ghost use Rattle.record_code.specs.Spelling.{list_bytes};
ghost use Rattle.record_code.specs.Fields.{each_at, list_at};
ghost use Rattle.record_code.specs.Room.{HaveRoom};
ghost use Rattle.record_code.specs.code.Reads.{Reads, ReadsFields};

use crate::field_error::FieldError;
use crate::numbers::read_u32;
use crate::texts::write_count;
use commit_file::Version;
use plain_data::Text;
use std::alloc::{AllocError, Global};

/// What is written as a field, and read again from one.
pub trait Field: Drop {
    ghost use Rattle.commit_file.specs.declared.version.Version.{Version};

    /// The bytes of the field.
    ghost spelling: { Self → List ℕ };

    /// What its numbers and lengths are, so that the field has room for them.
    ghost has_room: { Self → Type 0 };

    /// What is read from the front of bytes in a payload of a version, and the bytes behind it.
    ghost read_at: { Version → List ℕ → Option (Self × List ℕ) };

    /// Writes the field. What it has no room for is answered as want of memory.
    fn write(&self, out: &mut Text) -> Result<(), AllocError>
        ensures written { OnOk result (out.new ≡ out.old ++ spelling self.now) }
        ensures room { OnOk result (has_room self.now) };

    /// Reads the field from the front of bytes in a payload of a version.
    fn read(alloc: Global, version: Version, bytes: &[u8]) -> Result<(Self, &[u8]), FieldError>
        ensures { Reads (λ read. (read.0, read.1.now)) result (read_at version bytes.now) };
}

/// Writes fields one behind another.
fn write_each<F: Field>(out: &mut Text, fields: &[F]) -> Result<(), AllocError>
    ensures written { OnOk result (out.new ≡ out.old ++ flat_map F.spelling fields.now) }
    ensures room { OnOk result (AllByRecursion F.has_room fields.now) }
{
    for field in fields {
        field.write(out)?;
    }
    Ok(())
}

/// Writes a list: how many there are, and each.
pub fn write_list<F: Field>(out: &mut Text, fields: &[F]) -> Result<(), AllocError>
    ensures written { OnOk result (out.new ≡ out.old ++ list_bytes F.spelling fields.now) }
    ensures room { OnOk result (HaveRoom F.has_room fields.now) }
{
    write_count(out, fields.len())?;
    write_each(out, fields)
}

/// Reads so many fields one behind another. Memory is taken for those that were read alone.
fn read_each<F: Field>(
    alloc: Global,
    version: Version,
    count: u32,
    bytes: &[u8],
) -> Result<(Vec<F>, &[u8]), FieldError>
    ensures { ReadsFields result (each_at (F.read_at version) count bytes.now) }
{
    let mut fields = Vec::new(alloc);
    let mut rest = bytes;
    for _ in 0..count {
        let (field, behind) = F::read(alloc, version, rest)?;
        fields.push(field)?;
        rest = behind;
    }
    Ok((fields, rest))
}

/// Reads a list.
#[tactic(auto, unfolding(crate::specs::Fields::list_at))]
pub fn read_list<F: Field>(
    alloc: Global,
    version: Version,
    bytes: &[u8],
) -> Result<(Vec<F>, &[u8]), FieldError>
    ensures { ReadsFields result (list_at (F.read_at version) bytes.now) }
{
    let (count, rest) = read_u32(bytes)?;
    read_each(alloc, version, count, rest)
}
