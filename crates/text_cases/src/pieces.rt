//! The texts of rows: as they are, or behind an `@` in pieces.

use dtext::{is_digit, next_natural, next_text};
use plain_data::{OrNoMemory, Sequence, Text};
use predictive_parsing::{Cursor, Refused};
use std::alloc::{AllocError, Global};

/// How often a piece stands in a text, at most.
const MOST_TIMES: u64 = 10_000;

/// How often the next piece stands in the text: once where no number says it.
fn next_times(cursor: &mut Cursor<u8>) -> Result<u64, OrNoMemory<Refused>> {
    if !cursor.sees(|byte| is_digit(*byte)) {
        return Ok(1);
    }
    let times = next_natural(cursor, MOST_TIMES)?;
    cursor.byte(b' ')?;
    Ok(times)
}

/// Adds the pieces that are next, behind a blank: one text in quotes, as often as a number says.
fn push_next(
    alloc: Global,
    pieces: &mut Sequence<Text>,
    cursor: &mut Cursor<u8>,
) -> Result<(), OrNoMemory<Refused>> {
    cursor.byte(b' ')?;
    let times = next_times(cursor)?;
    let piece = next_text(alloc, cursor)?;
    for _ in 0..times {
        pieces.push(piece.clone()?)?;
    }
    Ok(())
}

/// The pieces in quotes that some bytes are.
fn quoted(alloc: Global, bytes: &[u8]) -> Result<Sequence<Text>, OrNoMemory<Refused>> {
    let mut pieces = Sequence::new(alloc);
    let mut cursor = Cursor::new(bytes);
    for _ in bytes {
        if cursor.len() == 0 {
            break;
        }
        push_next(alloc, &mut pieces, &mut cursor)?;
    }
    Ok(pieces)
}

/// The pieces of a text.
pub fn pieces_of(alloc: Global, text: &[u8]) -> Result<Sequence<Text>, OrNoMemory<Refused>> {
    if let [b'@', behind @ ..] = text {
        return quoted(alloc, behind);
    }
    let mut pieces = Sequence::new(alloc);
    pieces.push(Text::from_slice(alloc, text)?)?;
    Ok(pieces)
}

/// Words: the pieces, or what stands between blanks.
pub fn words_of(alloc: Global, text: &[u8]) -> Result<Sequence<Text>, OrNoMemory<Refused>> {
    if let [b'@', behind @ ..] = text {
        return quoted(alloc, behind);
    }
    let mut words = Sequence::new(alloc);
    for word in text.split(|byte| *byte == b' ') {
        words.push(Text::from_slice(alloc, word)?)?;
    }
    Ok(words)
}

/// The pieces as one text.
pub fn joined(alloc: Global, pieces: &[Text]) -> Result<Text, AllocError> {
    let mut text = Text::new(alloc);
    for piece in pieces {
        text.extend_from_slice(piece.as_slice())?;
    }
    Ok(text)
}
