//! Cuts a text into tokens.

ghost use Rattle.std.specs.Prelude.{◌≡◌, ◌<◌, ◌-◌, ◌^◌, length, map, IfOk, Ok};
ghost use Rattle.std.specs.Str.{bytes_eq};
ghost use Rattle.txn_grammar.specs.declared.limit.TheConstants.{LONGEST_NAME};
ghost use Rattle.txn_grammar.specs.declared.token.Token.TheVariants as t;
ghost use Rattle.txn_grammar.specs.Lexer as spec;
ghost use Rattle.txn_grammar.specs.Spellings.{spelled_in};
ghost use Rattle.txn_grammar.specs.code.Unquoted as code;

use crate::limit::LONGEST_NAME;
use crate::number::number_value;
use crate::symbol::{MARKS, Symbol, WORDS};
use crate::token::{Lexeme, Spot, Token};
use dtext::{is_blank, is_digit, is_letter, is_word, next_text};
use plain_data::{OrNoMemory, Text};
use predictive_parsing::{Cursor, Refused, prefix_len};
use std::alloc::{AllocError, Global};

/// Whether the texts are one. Most differ in length, and what is left is short, so it is compared byte by byte.
fn same(mut spelling: &[u8], mut text: &[u8]) -> bool
    ensures { result ≡ bytes_eq spelling.entry.now text.entry.now }
{
    if spelling.len() != text.len() {
        return false;
    }
    while let ([wanted, others @ ..], [found, behind @ ..]) = (spelling, text) {
        if wanted != found {
            return false;
        }
        spelling = others;
        text = behind;
    }
    spelling.is_empty() && text.is_empty()
}

/// The reserved word or the mark of the row that has this spelling.
fn spelled_in(mut rows: &[(&[u8], Symbol)], text: &[u8]) -> Option<Symbol>
    ensures { result ≡ spelled_in (map (λ row. (row.0.now, row.1)) rows.entry.now) text.now }
{
    while let [row, rest @ ..] = rows {
        if same(row.0, text) {
            return Some(row.1);
        }
        rows = rest;
    }
    None
}

/// A reserved word, or else a name.
#[tactic(auto, unfolding(crate::specs::Lexer::word_token, crate::specs::Spellings::reserved_word))]
fn word_token(alloc: Global, word: &[u8]) -> Result<Token, AllocError>
    ensures token { IfOk result (λ token. token ≡ spec.word_token word.now) }

    // A word that is too long is malformed before memory is taken.
    ensures long { LONGEST_NAME < length word.now → result ≡ Ok t.Malformed }
{
    if word.len() > LONGEST_NAME {
        return Ok(Token::Malformed);
    }
    if let Some(symbol) = spelled_in(&WORDS, word) {
        return Ok(Token::Symbol(symbol));
    }
    let name = Text::from_slice(alloc, word)?;
    Ok(Token::Name(name))
}

/// The word at the front, where a letter is.
#[tactic(auto, unfolding(crate::specs::Lexer::word_at))]
fn word_at(alloc: Global, text: &[u8]) -> Result<Lexeme, AllocError>
    ensures { IfOk result (λ lexeme. lexeme ≡ spec.word_at text.now) }
{
    let len = prefix_len(text, |byte| is_word(*byte));
    let token = word_token(alloc, &text[..len])?;
    Ok(Lexeme { token, len })
}

/// The number at the front, where a digit is.
#[tactic(auto, unfolding(crate::specs::Lexer::number_at))]
fn number_at(text: &[u8]) -> Lexeme
    ensures { result ≡ spec.number_at text.now }
{
    let len = prefix_len(text, |byte| is_digit(*byte));
    let token = match number_value(&text[..len]) {
        Some(value) => Token::Number(value),
        None => Token::Malformed,
    };
    Lexeme { token, len }
}

/// What stands at a quote that begins no text in quotes: a malformed byte, which is never told as want of memory.
fn unquoted(stop: OrNoMemory<Refused>) -> Result<Lexeme, AllocError>
    ensures { result ≡ code.unquoted stop }
{
    match stop {
        OrNoMemory::Cause(_) => Ok(Lexeme {
            token: Token::Malformed,
            len: 1,
        }),
        OrNoMemory::NoMemory => Err(AllocError),
    }
}

/// The text in quotes at the front, where a quote is.
#[tactic(auto, unfolding(crate::specs::Lexer::text_at), using(crate::proofs::Cuts::text_shrinks))]
fn text_at(alloc: Global, text: &[u8]) -> Result<Lexeme, AllocError>
    ensures { IfOk result (λ lexeme. lexeme ≡ spec.text_at text.now) }
{
    let mut cursor = Cursor::new(text);
    match next_text(alloc, &mut cursor) {
        Ok(bytes) => Ok(Lexeme {
            token: Token::Text(bytes),
            len: text.len() - cursor.len(),
        }),
        Err(stop) => unquoted(stop),
    }
}

/// The mark of two bytes at the front. The second byte of each is `=`.
#[tactic(auto, unfolding(crate::specs::Spellings::mark))]
fn long_mark(text: &[u8]) -> Option<Symbol>
    ensures { result ≡ spec.long_mark text.now }
{
    if text.len() < 2 || text[1] != b'=' {
        return None;
    }
    spelled_in(&MARKS, &text[..2])
}

/// The mark at the front, the longer one where two fit.
#[tactic(auto, unfolding(crate::specs::Lexer::mark_at, crate::specs::Spellings::mark))]
fn mark_at(text: &[u8]) -> Lexeme
    requires { 0 < length text.now }
    ensures { result ≡ spec.mark_at text.now }
{
    if let Some(symbol) = long_mark(text) {
        return Lexeme {
            token: Token::Symbol(symbol),
            len: 2,
        };
    }
    let token = match spelled_in(&MARKS, &text[..1]) {
        Some(symbol) => Token::Symbol(symbol),
        None => Token::Malformed,
    };
    Lexeme { token, len: 1 }
}

/// The token at the front, where no blank is.
#[tactic(auto, unfolding(crate::specs::Lexer::token_at))]
fn token_at(alloc: Global, text: &[u8]) -> Result<Lexeme, AllocError>
    requires { 0 < length text.now }
    ensures { IfOk result (λ lexeme. lexeme ≡ spec.token_at text.now) }
{
    let first = text[0];
    if is_letter(first) {
        word_at(alloc, text)
    } else if is_digit(first) {
        Ok(number_at(text))
    } else if first == b'"' {
        text_at(alloc, text)
    } else {
        Ok(mark_at(text))
    }
}

/// Whether the token is a malformed one.
fn is_malformed(token: &Token) -> bool
    ensures { result ≡ spec.is_malformed token.now }
{
    matches!(token, Token::Malformed)
}

/// The tokens of a text, each with the column of its first byte. What begins no token, or one out of its bounds, is a
/// malformed one, and the last.
pub fn tokens(alloc: Global, source: &[u8]) -> Result<Vec<Spot>, AllocError>
    requires { length source.now < 2 ^ 32 - 1 }
    ensures { IfOk result (λ spots. spots.items ≡ spec.lex source.now) }
{
    let mut spots = Vec::with_capacity(alloc, source.len() / 2)?;
    let mut at = 0;
    while at < source.len() {
        if is_blank(source[at]) {
            at += 1;
        } else {
            let Lexeme { token, len } = token_at(alloc, &source[at..])?;
            let column = at as u32 + 1;
            let ends = is_malformed(&token);
            spots.push(Spot { column, token })?;
            if ends {
                return Ok(spots);
            }
            at += len;
        }
    }
    Ok(spots)
}
