//! Bytes as a table has them: hexadecimal digits, texts in quotes, and bytes that stand there many times.

use std::alloc::Global;

/// How often a byte stands there at most, where a number says it.
const MOST_TIMES: usize = 10_000;

/// Adds a byte so many times.
fn add_times(alloc: Global, bytes: &mut Vec<u8>, byte: &str, times: usize) -> Option<()> {
    let piece = hex::decode(alloc, byte).ok()?;
    for _ in 0..times.min(MOST_TIMES) {
        bytes.extend_from_slice(piece.as_slice()).ok()?;
    }
    Some(())
}

/// Adds the bytes of a word: digits, or a byte, `*`, and how often it stands there.
fn add_word(alloc: Global, bytes: &mut Vec<u8>, word: &str) -> Option<()> {
    match word.split_once("*") {
        Some((byte, times)) => add_times(alloc, bytes, byte, times.parse::<usize>().ok()?),
        None => add_times(alloc, bytes, word, 1),
    }
}

/// Adds the bytes of words.
fn add_words(alloc: Global, bytes: &mut Vec<u8>, words: &str) -> Option<()> {
    for word in words.split_whitespace() {
        add_word(alloc, bytes, word)?;
    }
    Some(())
}

/// The bytes that a text spells: what stands in single quotes as it is, and the words around that. Blanks between words say
/// nothing.
pub(crate) fn spelled(alloc: Global, text: &str) -> Option<Vec<u8>> {
    let mut bytes = Vec::new(alloc);
    for (place, part) in text.split("'").enumerate() {
        if place % 2 == 0 {
            add_words(alloc, &mut bytes, part)?;
        } else {
            bytes.extend_from_slice(part.as_bytes()).ok()?;
        }
    }
    Some(bytes)
}
