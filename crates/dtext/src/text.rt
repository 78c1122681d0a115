//! Texts in quotes.

ghost use Rattle.std.specs.Prelude.{◌≡◌, ◌<◌, IfSome, IfOk};
ghost use Rattle.predictive_parsing.specs.Reading.{one};
ghost use Rattle.predictive_parsing.specs.Reads.{Reads, OnlyRefuses};
ghost use Rattle.dtext.specs.code.Reading as spec;
ghost use Rattle.dtext.specs.Spellings as rule;

use plain_data::{OrNoMemory, Text};
use predictive_parsing::{Cursor, Reading, Refused, read_many};
use rdt_types::DELETE;
use std::alloc::Global;

/// What stands for itself between quotes.
fn plain(byte: u8) -> Option<u8>
    ensures { result ≡ rule.plain byte }
{
    if b' ' <= byte && byte != DELETE && byte != b'"' && byte != b'\\' {
        Some(byte)
    } else {
        None
    }
}

/// What one byte behind a backslash stands for.
fn short(byte: u8) -> Option<u8>
    ensures { result ≡ rule.short byte }
{
    if byte == b'"' || byte == b'\\' {
        Some(byte)
    } else if byte == b'n' {
        Some(b'\n')
    } else {
        None
    }
}

/// The value of a hexadecimal digit; only lower-case letters are digits.
fn hex_value(byte: u8) -> Option<u8>
    ensures value { result ≡ rule.hex_value byte }
    ensures below { IfSome result (λ value. value < 16) }
{
    if b'0' <= byte && byte <= b'9' {
        Some(byte - b'0')
    } else if b'a' <= byte && byte <= b'f' {
        Some(byte - b'a' + 10)
    } else {
        None
    }
}

fn hex_digit(cursor: &mut Cursor<u8>) -> Result<u8, OrNoMemory<Refused>>
    ensures read { Reads (one rule.hex_value cursor.old) result cursor.new }
    ensures refusal { OnlyRefuses result }
    ensures below { IfOk result (λ value. value < 16) }
{
    cursor.take(|byte| hex_value(*byte))
}

/// `x` and two digits.
#[tactic(auto, unfolding(crate::specs::code::Reading::hexadecimal))]
fn hexadecimal(cursor: &mut Cursor<u8>) -> Result<u8, OrNoMemory<Refused>>
    ensures read { Reads (spec.hexadecimal cursor.old) result cursor.new }
    ensures refusal { OnlyRefuses result }
{
    cursor.byte(b'x')?;
    let high = hex_digit(cursor)?;
    let low = hex_digit(cursor)?;
    Ok(16 * high + low)
}

/// One byte behind a backslash.
fn short_escape(cursor: &mut Cursor<u8>) -> Result<u8, OrNoMemory<Refused>>
    ensures read { Reads (one rule.short cursor.old) result cursor.new }
    ensures refusal { OnlyRefuses result }
{
    cursor.take(|byte| short(*byte))
}

/// A backslash, and what it makes of the bytes behind it.
#[tactic(auto, unfolding(crate::specs::code::Reading::escape))]
fn escape(cursor: &mut Cursor<u8>) -> Result<u8, OrNoMemory<Refused>>
    ensures read { Reads (spec.escape cursor.old) result cursor.new }
    ensures refusal { OnlyRefuses result }
{
    cursor.byte(b'\\')?;
    if cursor.sees_byte(b'x') {
        hexadecimal(cursor)
    } else {
        short_escape(cursor)
    }
}

fn plain_byte(cursor: &mut Cursor<u8>) -> Result<u8, OrNoMemory<Refused>>
    ensures read { Reads (one rule.plain cursor.old) result cursor.new }
    ensures refusal { OnlyRefuses result }
{
    cursor.take(|byte| plain(*byte))
}

/// One byte of a text.
#[tactic(auto, unfolding(crate::specs::code::Reading::piece))]
fn piece(cursor: &mut Cursor<u8>) -> Result<u8, OrNoMemory<Refused>>
    ensures read { Reads (spec.piece cursor.old) result cursor.new }
    ensures refusal { OnlyRefuses result }
{
    if cursor.sees_byte(b'\\') {
        escape(cursor)
    } else {
        plain_byte(cursor)
    }
}

/// The bytes of a text, which go on up to a quote.
struct Pieces;

impl Reading<u8, u8> for Pieces {
    ghost starts = { λ _. spec.inside };

    ghost reader = { λ _. spec.piece };

    fn begins(&self, cursor: &Cursor<u8>) -> bool {
        cursor.sees(|byte| *byte != b'"')
    }

    fn read(&self, _alloc: Global, cursor: &mut Cursor<u8>) -> Result<u8, OrNoMemory<Refused>> {
        piece(cursor)
    }
}

/// Reads the text in quotes that is next.
#[tactic(auto, unfolding(crate::specs::code::Reading::text, crate::specs::code::Reading::pieces))]
pub fn next_text(alloc: Global, cursor: &mut Cursor<u8>) -> Result<Text, OrNoMemory<Refused>>
    ensures { Reads (spec.text cursor.old) result cursor.new }
{
    cursor.byte(b'"')?;
    let found = read_many(alloc, &Pieces, cursor)?;
    cursor.byte(b'"')?;
    Ok(found)
}
