//! Reading: the whole of some bytes as one value, or the column at which they stop being a spelling.
//!
//! Each call makes three promises: what it reads is spelled by the bytes (`read`); each spelling is read, want of memory
//! aside (`spellings`); and else the column is that of the first byte with which no spelling goes on, whatever comes
//! then, or the one behind the last byte where the bytes end too early (`refused`).

ghost use Rattle.std.specs.Prelude.{◌≡◌, ◌<◌, ◌+◌, ◌-◌, ◌^◌, length, IfOk, Err};
ghost use Rattle.plain_data.specs.declared.or_no_memory.OrNoMemory.TheVariants as stop;
ghost use Rattle.dtext.specs.declared.error.TextError.TheVariants.{NoMemory};
ghost use Rattle.dtext.specs.Answers.{IsEnd, AnswersEach, RefusesBy};
ghost use Rattle.dtext.specs.Spellings.{TextRule, IsText, AddressRule, IsAddress, ItemRule, IsItem, OutcomeRule, IsOutcome, PartRule, IsPart};

use crate::error::TextError;
use crate::item::{next_item, next_outcome};
use crate::part::part;
use crate::text::next_text;
use crate::value::next_address;
use plain_data::{OrNoMemory, Text};
use predictive_parsing::{Cursor, Refused};
use rdt_types::{Address, Item, Outcome, WriteOp};
use std::alloc::Global;

/// The column of the first of the bytes that are left.
fn column_of(length: usize, left: usize) -> u32
    requires { length < 2 ^ 32 - 1 }
    ensures { result ≡ length - left + 1 }
{
    (length.saturating_sub(left) + 1) as u32
}

/// What was read of so many bytes, where none is left behind it, and else the column of the first that is left: the end
/// of each call that reads the whole of some bytes.
pub fn finish<A: Drop>(
    found: Result<A, OrNoMemory<Refused>>,
    cursor: &Cursor<u8>,
    length: usize,
) -> Result<A, TextError>
    requires { length < 2 ^ 32 - 1 }
    ensures answer { IsEnd found cursor.now length result }
    ensures memory { found ≡ Err stop.NoMemory → result ≡ Err NoMemory }
{
    match found {
        Ok(value) => {
            if cursor.len() == 0 {
                Ok(value)
            } else {
                Err(TextError::At(column_of(length, cursor.len())))
            }
        }
        Err(OrNoMemory::Cause(Refused)) => Err(TextError::At(column_of(length, cursor.len()))),
        Err(OrNoMemory::NoMemory) => Err(TextError::NoMemory),
    }
}

/// Reads a text in quotes.
pub fn read_text(alloc: Global, bytes: &[u8]) -> Result<Text, TextError>
    requires { length bytes.now < 2 ^ 32 - 1 }
    ensures read { IfOk result (λ text. IsText bytes.now text) }
    ensures spellings { AnswersEach (IsText bytes.now) result }
    ensures refused { RefusesBy TextRule bytes.now result }
{
    let mut cursor = Cursor::new(bytes);
    let found = next_text(alloc, &mut cursor);
    finish(found, &cursor, bytes.len())
}

/// Reads an address: the word of its kind, and its key in parentheses.
pub fn read_address(alloc: Global, bytes: &[u8]) -> Result<Address, TextError>
    requires { length bytes.now < 2 ^ 32 - 1 }
    ensures read { IfOk result (λ address. IsAddress bytes.now address) }
    ensures spellings { AnswersEach (IsAddress bytes.now) result }
    ensures refused { RefusesBy AddressRule bytes.now result }
{
    let mut cursor = Cursor::new(bytes);
    let found = next_address(alloc, &mut cursor);
    finish(found, &cursor, bytes.len())
}

/// Reads a value that a body emits.
pub fn read_item(alloc: Global, bytes: &[u8]) -> Result<Item, TextError>
    requires { length bytes.now < 2 ^ 32 - 1 }
    ensures read { IfOk result (λ item. IsItem bytes.now item) }
    ensures spellings { AnswersEach (IsItem bytes.now) result }
    ensures refused { RefusesBy ItemRule bytes.now result }
{
    let mut cursor = Cursor::new(bytes);
    let found = next_item(alloc, &mut cursor);
    finish(found, &cursor, bytes.len())
}

/// Reads how a body ended.
pub fn read_outcome(alloc: Global, bytes: &[u8]) -> Result<Outcome, TextError>
    requires { length bytes.now < 2 ^ 32 - 1 }
    ensures read { IfOk result (λ outcome. IsOutcome bytes.now outcome) }
    ensures spellings { AnswersEach (IsOutcome bytes.now) result }
    ensures refused { RefusesBy OutcomeRule bytes.now result }
{
    let mut cursor = Cursor::new(bytes);
    let found = next_outcome(alloc, &mut cursor);
    finish(found, &cursor, bytes.len())
}

/// Reads one write without its kind, which the form decides; what sets, hashes and lists share is read as a set's.
pub fn read_part(alloc: Global, bytes: &[u8]) -> Result<WriteOp, TextError>
    requires { length bytes.now < 2 ^ 32 - 1 }
    ensures read { IfOk result (λ part. IsPart bytes.now part) }
    ensures spellings { AnswersEach (IsPart bytes.now) result }
    ensures refused { RefusesBy PartRule bytes.now result }
{
    let mut cursor = Cursor::new(bytes);
    let found = part(alloc, &mut cursor);
    finish(found, &cursor, bytes.len())
}
