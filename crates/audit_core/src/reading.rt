//! The body of a commit: read anew, or as it came with the commit.

ghost use Rattle.std.specs.Prelude.{◌≡◌, IfOk, IfSome, Some};
ghost use Rattle.txn_grammar.specs.Parsed.{parsed};
ghost use Rattle.txn_lang.specs.Tree.{tree};
ghost use Rattle.audit_core.specs.code.Faults as code;
ghost use Rattle.audit_core.specs.code.Running.{IsReadOrNone, IsBodyOf};

use plain_data::Text;
use std::alloc::{AllocError, Global};
use txn_lang::{CheckError, Checked, check};
use txn_parse::{ParseError, parse};
use txn_trees::Body;

/// The longest text whose columns four bytes tell.
const LONGEST_TEXT: usize = 4_294_967_294;

/// What a text is that isn't parsed. A syntax that is none is never told as want of memory.
fn not_parsed(error: ParseError) -> Result<Option<Checked>, AllocError>
    ensures { result ≡ code.not_parsed error }
{
    match error {
        ParseError::Syntax(_column) => Ok(None),
        ParseError::NoMemory => Err(AllocError),
    }
}

/// What a body is that isn't accepted. What is ill typed or writes is never told as want of memory.
fn not_accepted(error: CheckError) -> Result<Option<Checked>, AllocError>
    ensures { result ≡ code.not_accepted error }
{
    match error {
        CheckError::BadType(_column) => Ok(None),
        CheckError::Writes(_column) => Ok(None),
        CheckError::NoMemory => Err(AllocError),
    }
}

/// The body of a text that was parsed, where it is well typed.
fn checked(alloc: Global, body: Body, source: Text) -> Result<Option<Checked>, AllocError>
    requires { parsed source ≡ Some body }
    ensures { IfOk result (IsReadOrNone source) }
{
    match check(alloc, body, source, false) {
        Ok(checked) => Ok(Some(checked)),
        Err(error) => not_accepted(error),
    }
}

/// The body that a text is, if it is one. A text that is longer than columns tell is answered as want of memory.
fn read(alloc: Global, text: &Text) -> Result<Option<Checked>, AllocError>
    ensures { IfOk result (IsReadOrNone text.now) }
{
    if text.len() > LONGEST_TEXT {
        return Err(AllocError);
    }
    match parse(alloc, text.as_slice()) {
        Ok(body) => checked(alloc, body, text.clone()?),
        Err(error) => not_parsed(error),
    }
}

/// A body that was read from a text, as one that may run.
fn as_read(body: Body, source: Text) -> Checked
    requires { tree source ≡ Some body }
    ensures { result.body ≡ body }
{
    Checked {
        body,
        source,
        read_only: false,
    }
}

/// The body that a text is, if it is one. It is read here where none came with the text.
pub(crate) fn body_of(
    alloc: Global,
    text: &Text,
    given: Option<Body>,
) -> Result<Option<Checked>, AllocError>
    requires { IfSome given (IsBodyOf text.now) }
    ensures { IfOk result (IsReadOrNone text.now) }
{
    match given {
        Some(body) => Ok(Some(as_read(body, text.clone()?))),
        None => read(alloc, text),
    }
}
