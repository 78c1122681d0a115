//! The one call that reads a text as a body.

ghost use Rattle.std.specs.Prelude.{◌≡◌, ◌≢◌, ◌<◌, ◌-◌, ◌^◌, ℕ, length, IfOk, Some, Ok, Err};
ghost use Rattle.txn_trees.specs.declared.statement.Body.{Body};
ghost use Rattle.txn_grammar.specs.Lexer.{lex};
ghost use Rattle.txn_grammar.specs.Grammar.{IsBody};
ghost use Rattle.txn_grammar.specs.Parsed.{parsed, first_column, IsSyntaxColumn};
ghost use Rattle.txn_parse.specs.declared.whole.ParseError.TheVariants.{Syntax, NoMemory};
ghost use Rattle.txn_parse.specs.code.Ended as code;

use crate::Stop;
use crate::statement::body;
use plain_data::OrNoMemory;
use predictive_parsing::Cursor;
use std::alloc::{AllocError, Global};
use txn_grammar::{Spot, tokens};
use txn_trees::Body;

/// Why a text was not read.
#[derive(Clone, Copy, Debug, PartialEq, Eq)]
pub enum ParseError {
    /// It is no body: the column of the first token that is malformed, or that no body can have behind the tokens before;
    /// or the one behind the last byte, where the text ends too early.
    Syntax(u32),
    NoMemory,
}

impl From<AllocError> for ParseError {
    ghost use Rattle.std.specs.Prelude.{◌≡◌};
    ghost use Rattle.txn_parse.specs.declared.whole.ParseError.TheVariants.{NoMemory};

    ghost from_gives = { λ _ error. error ≡ NoMemory };

    fn from(_error: AllocError) -> ParseError {
        ParseError::NoMemory
    }
}

/// The column of the token ahead, or of the end where there is none.
fn column_ahead(cursor: &Cursor<Spot>, end: u32) -> u32
    ensures { result ≡ first_column end cursor.now }
{
    match cursor.peek() {
        Some(spot) => spot.column,
        None => end,
    }
}

/// What the call answers, by what was read and what is left.
fn ended(found: Result<Body, Stop>, cursor: &Cursor<Spot>, end: u32) -> Result<Body, ParseError>
    ensures { result ≡ code.ended end found cursor.now }
{
    match found {
        Ok(body) => {
            let is_done = cursor.len() == 0;
            if is_done {
                Ok(body)
            } else {
                Err(ParseError::Syntax(column_ahead(cursor, end)))
            }
        }
        Err(OrNoMemory::Cause(_)) => Err(ParseError::Syntax(column_ahead(cursor, end))),
        Err(OrNoMemory::NoMemory) => Err(ParseError::NoMemory),
    }
}

/// Reads a body. It is Ok exactly on the bodies of the grammar, each by its one tree with its columns, want of memory
/// aside.
pub fn parse(alloc: Global, source: &[u8]) -> Result<Body, ParseError>
    requires { length source.now < 2 ^ 32 - 1 }
    // What is read is derived by the grammar.
    ensures read { IfOk result (λ body. IsBody (lex source.now) body) }
    // So it is the text's body.
    ensures tree { IfOk result (λ body. parsed source.now ≡ Some body) }
    // Each body of the grammar is read.
    ensures bodies { (body : Body) → IsBody (lex source.now) body → result ≢ Err NoMemory → result ≡ Ok body }
    // Any other text is refused at the column at which it stops being a body.
    ensures refused { (column : ℕ) → result ≡ Err (Syntax column) → IsSyntaxColumn source.now column }
{
    let spots = tokens(alloc, source)?;
    let end = source.len() as u32 + 1;
    let mut cursor = Cursor::new(spots.as_slice());
    let found = body(alloc, &mut cursor);
    ended(found, &cursor, end)
}
