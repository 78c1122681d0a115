//! Texts, and how many there are of what follows.

ghost use Rattle.std.specs.Prelude.{◌≡◌, ◌<◌, ◌^◌, ◌++◌, OnOk};
ghost use Rattle.std.specs.Int.{w32, to_be_bytes};
ghost use Rattle.record_code.specs.Spelling.{text_bytes};
ghost use Rattle.record_code.specs.Fields.{text_at};
ghost use Rattle.record_code.specs.code.Reads.{Reads};

use crate::field_error::FieldError;
use crate::numbers::{read_u32, write_u32};
use plain_data::Text;
use std::alloc::{AllocError, Global};

/// Writes how many there are. More than four bytes tell are answered as want of memory.
pub fn write_count(out: &mut Text, count: usize) -> Result<(), AllocError>
    ensures written { OnOk result (out.new ≡ out.old ++ to_be_bytes w32 count) }
    ensures room { OnOk result (count < 2 ^ 32) }
{
    match u32::try_from(count) {
        Ok(count) => write_u32(out, count),
        Err(_) => Err(AllocError),
    }
}

/// Writes a text. One whose length four bytes don't tell is answered as want of memory.
pub fn write_text(out: &mut Text, text: &[u8]) -> Result<(), AllocError>
    ensures { OnOk result (out.new ≡ out.old ++ text_bytes text.now) }
{
    write_count(out, text.len())?;
    out.extend_from_slice(text)
}

/// Reads a text of at most so many bytes.
#[tactic(auto, unfolding(crate::specs::Fields::text_at))]
pub fn read_text(alloc: Global, most: usize, bytes: &[u8]) -> Result<(Text, &[u8]), FieldError>
    ensures { Reads (λ read. (read.0, read.1.now)) result (text_at most bytes.now) }
{
    let (length, rest) = read_u32(bytes)?;
    let length = length as usize;
    if length > most || rest.len() < length {
        return Err(FieldError::Malformed);
    }
    let (text, rest) = rest.split_at(length);
    Ok((Text::from_slice(alloc, text)?, rest))
}
