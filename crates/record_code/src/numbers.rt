//! Numbers and single bytes. A reader that takes no memory never tells want of it.

ghost use Rattle.std.specs.Prelude.{◌≡◌, ◌≢◌, ◌++◌, [], ◌∷◌, OnOk, Err};
ghost use Rattle.std.specs.Int.{w32, w64, to_be_bytes};
ghost use Rattle.record_code.specs.declared.field_error.FieldError.TheVariants as errors;
ghost use Rattle.record_code.specs.Spelling.{int_bytes};
ghost use Rattle.record_code.specs.Fields.{number_at, int_at, tag_at};
ghost use Rattle.record_code.specs.Room.{IsInt};
ghost use Rattle.record_code.specs.code.Reads.{Reads};

use crate::field_error::FieldError;
use plain_data::Text;
use std::alloc::AllocError;

/// Writes a number of four bytes.
pub fn write_u32(out: &mut Text, number: u32) -> Result<(), AllocError>
    ensures { OnOk result (out.new ≡ out.old ++ to_be_bytes w32 number) }
{
    out.extend_from_slice(&number.to_be_bytes())
}

/// Writes a number of eight bytes.
pub fn write_u64(out: &mut Text, number: u64) -> Result<(), AllocError>
    ensures { OnOk result (out.new ≡ out.old ++ to_be_bytes w64 number) }
{
    out.extend_from_slice(&number.to_be_bytes())
}

/// Writes a number with a sign, in two's complement.
pub fn write_i64(out: &mut Text, number: i64) -> Result<(), AllocError>
    ensures written { OnOk result (out.new ≡ out.old ++ int_bytes number) }
    ensures room { IsInt number }
{
    write_u64(out, number.cast_unsigned())
}

/// Writes a single byte.
pub fn write_byte(out: &mut Text, byte: u8) -> Result<(), AllocError>
    ensures { OnOk result (out.new ≡ out.old ++ byte ∷ []) }
{
    out.push(byte)
}

/// Reads a number of four bytes.
pub fn read_u32(bytes: &[u8]) -> Result<(u32, &[u8]), FieldError>
    ensures read { Reads (λ read. (read.0, read.1.now)) result (number_at w32 bytes.now) }
    ensures told { result ≢ Err errors.NoMemory }
{
    if bytes.len() < 4 {
        return Err(FieldError::Malformed);
    }
    let (front, rest) = bytes.split_at(4);
    let number = u32::from_be_bytes([front[0], front[1], front[2], front[3]]);
    Ok((number, rest))
}

/// Reads a number of eight bytes.
pub fn read_u64(bytes: &[u8]) -> Result<(u64, &[u8]), FieldError>
    ensures read { Reads (λ read. (read.0, read.1.now)) result (number_at w64 bytes.now) }
    ensures told { result ≢ Err errors.NoMemory }
{
    if bytes.len() < 8 {
        return Err(FieldError::Malformed);
    }
    let (front, rest) = bytes.split_at(8);
    let number = u64::from_be_bytes([
        front[0], front[1], front[2], front[3], front[4], front[5], front[6], front[7],
    ]);
    Ok((number, rest))
}

/// Reads a number with a sign.
#[tactic(auto, unfolding(crate::specs::Fields::int_at))]
pub fn read_i64(bytes: &[u8]) -> Result<(i64, &[u8]), FieldError>
    ensures read { Reads (λ read. (read.0, read.1.now)) result (int_at bytes.now) }
    ensures told { result ≢ Err errors.NoMemory }
{
    let (number, rest) = read_u64(bytes)?;
    Ok((number.cast_signed(), rest))
}

/// Reads a byte as what has its place in a row.
#[tactic(auto, unfolding(crate::specs::Fields::tag_at))]
pub fn read_tag<'a, A: Copy>(tags: &[A], bytes: &'a [u8]) -> Result<(A, &'a [u8]), FieldError>
    ensures read { Reads (λ read. (read.0, read.1.now)) result (tag_at tags.now bytes.now) }
    ensures told { result ≢ Err errors.NoMemory }
{
    let [byte, rest @ ..] = bytes else {
        return Err(FieldError::Malformed);
    };
    match tags.get(*byte as usize) {
        Some(tag) => Ok((*tag, rest)),
        None => Err(FieldError::Malformed),
    }
}
