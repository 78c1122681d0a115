//! The rows of the file: `KIND VERDICT TEXT`, or `KIND VERDICT TEXT => ANSWER`.

use crate::answer::{Answer, Verdict};
use crate::pieces::{joined, pieces_of, words_of};
use crate::reading::{read, read_command};
use dtext::{is_letter, next_natural};
use plain_data::{OrNoMemory, Sequence, Text};
use predictive_parsing::{Cursor, Refused};
use std::alloc::Global;

/// What a text is read as.
#[derive(Clone, Copy, PartialEq, Eq)]
pub enum Kind {
    Text,
    Address,
    Item,
    Outcome,
    Part,
    Verb,
    Reply,
    Body,
    Words,
}

impl Kind {
    fn named(word: &[u8]) -> Option<Kind> {
        match word {
            b"text" => Some(Kind::Text),
            b"address" => Some(Kind::Address),
            b"item" => Some(Kind::Item),
            b"outcome" => Some(Kind::Outcome),
            b"part" => Some(Kind::Part),
            b"verb" => Some(Kind::Verb),
            b"reply" => Some(Kind::Reply),
            b"body" => Some(Kind::Body),
            b"words" => Some(Kind::Words),
            _ => None,
        }
    }

    /// The pieces of a text that is read as this.
    fn pieces(self, alloc: Global, text: &[u8]) -> Result<Sequence<Text>, OrNoMemory<Refused>> {
        match self {
            Kind::Words => words_of(alloc, text),
            _ => pieces_of(alloc, text),
        }
    }
}

/// What a text is read as, its pieces, and what is to come of it.
#[derive(Drop)]
pub struct Row {
    kind: Kind,
    pieces: Sequence<Text>,
    verdict: Verdict,
    /// What it is to be printed as, or why it is to be refused, where the row says it.
    told: Option<Text>,
}

fn next_kind(cursor: &mut Cursor<u8>) -> Result<Kind, OrNoMemory<Refused>> {
    let word = cursor.run(|byte| is_letter(*byte));
    cursor.byte(b' ')?;
    Kind::named(word).ok_or(OrNoMemory::Cause(Refused))
}

/// The verdict that is next, up to its `=`.
fn next_verdict(cursor: &mut Cursor<u8>) -> Result<Verdict, OrNoMemory<Refused>> {
    if cursor.sees_byte(b'-') {
        cursor.skip();
        return Ok(Verdict::Refused);
    }
    match next_natural(cursor, u64::MAX)? {
        0 => Ok(Verdict::Read),
        column => Ok(Verdict::RefusedAt(column)),
    }
}

/// Whether the text is to be printed as it is.
fn next_is_printed(cursor: &mut Cursor<u8>) -> Result<bool, OrNoMemory<Refused>> {
    let is_printed = cursor.sees_byte(b'=');
    if is_printed {
        cursor.skip();
    }
    cursor.byte(b' ')?;
    Ok(is_printed)
}

/// The text of a row, and the answer where there is one.
fn cut(bytes: &[u8]) -> (&[u8], Option<&[u8]>) {
    for at in 0..bytes.len() {
        let (text, behind) = bytes.split_at(at);
        if let [b' ', b'=', b'>', b' ', answer @ ..] = behind {
            return (text, Some(answer));
        }
    }
    (bytes, None)
}

impl Row {
    /// The row that a line is.
    pub fn read(alloc: Global, line: &[u8]) -> Result<Row, OrNoMemory<Refused>> {
        let mut cursor = Cursor::new(line);
        let kind = next_kind(&mut cursor)?;
        let verdict = next_verdict(&mut cursor)?;
        let is_printed = next_is_printed(&mut cursor)?;
        let (text, answer) = cut(cursor.as_slice());
        let told = match answer {
            None if is_printed => Some(text),
            answer => answer,
        };
        Ok(Row {
            kind,
            pieces: kind.pieces(alloc, text)?,
            verdict,
            told: told_of(alloc, told)?,
        })
    }

    /// What comes of the text.
    pub fn try_text(&self, alloc: Global) -> Result<Answer, OrNoMemory<Refused>> {
        match self.kind {
            Kind::Words => read_command(alloc, self.pieces.as_slice()),
            kind => read(alloc, kind, &joined(alloc, self.pieces.as_slice())?),
        }
    }

    /// Whether this is what is to come of the text.
    pub fn holds(&self, answer: &Answer) -> bool {
        match &self.told {
            Some(told) => self.verdict == answer.verdict && *told == answer.told,
            None => self.verdict == answer.verdict,
        }
    }
}

/// The text that a row has for its answer.
fn told_of(alloc: Global, answer: Option<&[u8]>) -> Result<Option<Text>, OrNoMemory<Refused>> {
    match answer {
        Some(answer) => {
            let pieces = pieces_of(alloc, answer)?;
            Ok(Some(joined(alloc, pieces.as_slice())?))
        }
        None => Ok(None),
    }
}
