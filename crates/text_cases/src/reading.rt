//! Reads a text, and prints what is read.

ghost use Rattle.std.specs.Prelude.{◌≤◌, length};

use crate::answer::{Answer, Verdict};
use crate::plan::print_plan;
use crate::row::Kind;
use crate::verb::print_verb;
use cli_words::{BadWords, WordsError, read_words};
use dtext::{
    TextError, print_address, print_item, print_outcome, print_part, print_text, read_address,
    read_item, read_outcome, read_part, read_text,
};
use plain_data::{OrNoMemory, Text};
use predictive_parsing::Refused;
use session_text::{VerbError, print_reply, read_reply, read_verb};
use std::alloc::{AllocError, Global};
use std::str;
use txn_parse::{ParseError, parse};
use txn_print::print;

/// How many bytes a text has, at most.
const LONGEST_TEXT: usize = 1_048_576;

/// What is read as data or as a reply, printed.
fn reprint(alloc: Global, kind: Kind, bytes: &[u8]) -> Result<Text, TextError>
    requires { length bytes.now ≤ LONGEST_TEXT }
{
    let printed = match kind {
        Kind::Address => print_address(alloc, &read_address(alloc, bytes)?)?,
        Kind::Item => print_item(alloc, &read_item(alloc, bytes)?)?,
        Kind::Outcome => print_outcome(alloc, &read_outcome(alloc, bytes)?)?,
        Kind::Part => print_part(alloc, &read_part(alloc, bytes)?)?,
        Kind::Reply => print_reply(alloc, &read_reply(alloc, bytes)?)?,
        _ => print_text(alloc, &read_text(alloc, bytes)?)?,
    };
    Ok(printed)
}

fn read_data(alloc: Global, kind: Kind, bytes: &[u8]) -> Result<Answer, AllocError>
    requires { length bytes.now ≤ LONGEST_TEXT }
{
    match reprint(alloc, kind, bytes) {
        Ok(printed) => Ok(Answer::read(printed)),
        Err(TextError::At(column)) => Ok(Answer::refused_at(alloc, column)),
        Err(TextError::NoMemory) => Err(AllocError),
    }
}

fn read_body(alloc: Global, source: &[u8]) -> Result<Answer, AllocError>
    requires { length source.now ≤ LONGEST_TEXT }
{
    match parse(alloc, source) {
        Ok(body) => Ok(Answer::read(print(alloc, &body)?)),
        Err(ParseError::Syntax(column)) => Ok(Answer::refused_at(alloc, column)),
        Err(ParseError::NoMemory) => Err(AllocError),
    }
}

fn read_line(alloc: Global, line: &[u8]) -> Result<Answer, AllocError> {
    match read_verb(alloc, line) {
        Ok(verb) => Ok(Answer::read(print_verb(alloc, &verb)?)),
        Err(VerbError::BadVerb) => Ok(Answer {
            verdict: Verdict::Refused,
            told: Text::new(alloc),
        }),
        Err(VerbError::NoMemory) => Err(AllocError),
    }
}

/// Reads a text as anything but words. It is no row where it is too long.
pub fn read(alloc: Global, kind: Kind, text: &Text) -> Result<Answer, OrNoMemory<Refused>> {
    if text.len() > LONGEST_TEXT {
        return Err(OrNoMemory::Cause(Refused));
    }
    let answer = match kind {
        Kind::Body => read_body(alloc, text.as_slice())?,
        Kind::Verb => read_line(alloc, text.as_slice())?,
        _ => read_data(alloc, kind, text.as_slice())?,
    };
    Ok(answer)
}

/// The number of the word that is refused, or the one behind the last where they end too early.
fn number_of(bad: &BadWords<'_>, count: usize) -> u64 {
    match bad {
        BadWords::Refused { place, .. } => (*place as u64).saturating_add(1),
        BadWords::CutShort(_) => (count as u64).saturating_add(1),
    }
}

fn refused_words(alloc: Global, bad: &BadWords<'_>, count: usize) -> Result<Answer, AllocError> {
    let message = bad.to_string(alloc)?;
    Ok(Answer {
        verdict: Verdict::RefusedAt(number_of(bad, count)),
        told: Text::from_slice(alloc, message.as_bytes())?,
    })
}

/// Reads words as a command. It is no row where one of them isn't UTF-8.
pub fn read_command(alloc: Global, pieces: &[Text]) -> Result<Answer, OrNoMemory<Refused>> {
    let mut words = Vec::new(alloc);
    for piece in pieces {
        let Ok(word) = str::from_utf8(piece.as_slice()) else {
            return Err(OrNoMemory::Cause(Refused));
        };
        words.push(word).map_err(AllocError::from)?;
    }
    match read_words(alloc, words.as_slice()) {
        Ok(plan) => Ok(Answer::read(print_plan(alloc, &plan)?)),
        Err(WordsError::BadWords(bad)) => Ok(refused_words(alloc, &bad, words.len())?),
        Err(WordsError::NoMemory) => Err(OrNoMemory::NoMemory),
    }
}
