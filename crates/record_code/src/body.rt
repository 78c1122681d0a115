//! The field of a body's text, with the body that it is.

ghost use Rattle.std.specs.Prelude.{◌≡◌, ◌<◌, ◌≤◌, ◌-◌, ◌^◌, length, is_some, IfOk, Some};
ghost use Rattle.txn_lang.specs.Tree.{tree};
ghost use Rattle.journal_core.specs.Bodies as spec;
ghost use Rattle.record_code.specs.Reading.{is_body, body_at};
ghost use Rattle.record_code.specs.code.Reads.{Reads, Tells};
ghost use Rattle.record_code.specs.code.Faults as code;

use crate::field_error::FieldError;
use crate::kinds::has_kinds;
use crate::texts::read_text;
use commit_file::Version;
use dtext::is_blank;
use journal_core::LONGEST_BODY;
use plain_data::Text;
use std::alloc::Global;
use txn_lang::{CheckError, Checked, check};
use txn_parse::{ParseError, parse};

/// Whether the last byte is a blank.
fn ends_in_blank(text: &[u8]) -> bool
    ensures { result ≡ spec.ends_in_blank text.now }
{
    match text.last() {
        Some(last) => is_blank(*last),
        None => false,
    }
}

/// Why a text that isn't parsed is no body. A syntax that is none is never told as want of memory.
fn of_parse(error: ParseError) -> FieldError
    ensures { result ≡ code.of_parse error }
{
    match error {
        ParseError::Syntax(_column) => FieldError::Malformed,
        ParseError::NoMemory => FieldError::NoMemory,
    }
}

/// Why a body that isn't accepted is none. What is ill typed or writes is never told as want of memory.
fn of_check(error: CheckError) -> FieldError
    ensures { result ≡ code.of_check error }
{
    match error {
        CheckError::BadType(_column) => FieldError::Malformed,
        CheckError::Writes(_column) => FieldError::Malformed,
        CheckError::NoMemory => FieldError::NoMemory,
    }
}

/// The text back with its body, where it is that of one that may run.
fn with_tree(alloc: Global, text: Text) -> Result<Checked, FieldError>
    requires { length text ≤ LONGEST_BODY }
    ensures text { Tells (λ body. body.source) result text (is_some (tree text)) }
    ensures tree { IfOk result (λ body. tree body.source ≡ Some body.body) }
{
    let body = match parse(alloc, text.as_slice()) {
        Ok(body) => body,
        Err(error) => return Err(of_parse(error)),
    };
    match check(alloc, body, text, false) {
        Ok(checked) => Ok(checked),
        Err(error) => Err(of_check(error)),
    }
}

/// The text back with its body, where it is that of one, as it is kept, and the version has its kinds.
fn as_kept(alloc: Global, version: Version, text: Text) -> Result<Checked, FieldError>
    requires { length text ≤ LONGEST_BODY }
    ensures text { Tells (λ body. body.source) result text (is_body version text) }
    ensures tree { IfOk result (λ body. tree body.source ≡ Some body.body) }
{
    if ends_in_blank(text.as_slice()) {
        return Err(FieldError::Malformed);
    }
    if !has_kinds(alloc, version, text.as_slice())? {
        return Err(FieldError::Malformed);
    }
    with_tree(alloc, text)
}

/// Reads the text of a body in a payload of a version.
pub(crate) fn read_body(
    alloc: Global,
    version: Version,
    bytes: &[u8],
) -> Result<(Checked, &[u8]), FieldError>
    ensures text { Reads (λ read. (read.0.source, read.1.now)) result (body_at version bytes.now) }
    ensures tree { IfOk result (λ read. tree read.0.source ≡ Some read.0.body) }
{
    let (text, rest) = read_text(alloc, LONGEST_BODY, bytes)?;
    Ok((as_kept(alloc, version, text)?, rest))
}
