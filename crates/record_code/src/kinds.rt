//! The kinds that a version has, in addresses and in bodies.

ghost use Rattle.std.specs.Prelude.{◌≡◌, ◌≢◌, ◌≤◌, length, nat_lt, IfOk, Err};
ghost use Rattle.std.specs.List.{list_all};
ghost use Rattle.record_code.specs.declared.field_error.FieldError.TheVariants as errors;
ghost use Rattle.record_code.specs.Spelling.{kind_byte};
ghost use Rattle.record_code.specs.Fields.{tag_at};
ghost use Rattle.record_code.specs.Reading as spec;
ghost use Rattle.record_code.specs.Reading.{kinds_of};
ghost use Rattle.record_code.specs.code.Reads.{Reads};

use crate::field_error::FieldError;
use crate::numbers::read_tag;
use crate::tags::{KINDS_ONE, KINDS_TWO};
use commit_file::Version;
use journal_core::LONGEST_BODY;
use rdt_types::Kind;
use std::alloc::{AllocError, Global};
use txn_grammar::{Spot, Token, kind_at, tokens};

/// The byte of a kind.
pub fn byte_of_kind(kind: Kind) -> u8
    ensures { result ≡ kind_byte kind }
{
    match kind {
        Kind::Bool => 0,
        Kind::Counter => 1,
        Kind::Text => 2,
        Kind::Set => 3,
        Kind::Hash => 4,
        Kind::List => 5,
        Kind::Peak => 6,
    }
}

/// Reads a kind of a version.
pub fn read_kind(version: Version, bytes: &[u8]) -> Result<(Kind, &[u8]), FieldError>
    ensures read { Reads (λ read. (read.0, read.1.now)) result (tag_at (kinds_of version) bytes.now) }
    ensures told { result ≢ Err errors.NoMemory }
{
    match version {
        Version::One => read_tag(&KINDS_ONE, bytes),
        Version::Two => read_tag(&KINDS_TWO, bytes),
    }
}

/// Whether there is a place for a kind in a row.
fn has_place(kinds: &[Kind], kind: Kind) -> bool
    ensures { result ≡ nat_lt (kind_byte kind) (length kinds.now) }
{
    (byte_of_kind(kind) as usize) < kinds.len()
}

/// Whether a version has a kind.
fn has_kind(version: Version, kind: Kind) -> bool
    ensures { result ≡ spec.has_kind version kind }
{
    match version {
        Version::One => has_place(&KINDS_ONE, kind),
        Version::Two => has_place(&KINDS_TWO, kind),
    }
}

/// Whether a version has the kind whose word a token is, if it is one.
fn suits(version: Version, token: &Token) -> bool
    ensures { result ≡ spec.suits_token version token.now }
{
    match kind_at(token) {
        Some(kind) => has_kind(version, kind),
        None => true,
    }
}

/// Whether a version has each kind whose word stands among tokens.
fn all_suit(version: Version, spots: &[Spot]) -> bool
    ensures { result ≡ list_all (spec.suits_spot version) spots.now }
{
    for spot in spots {
        if !suits(version, &spot.token) {
            return false;
        }
    }
    true
}

/// Whether a version has the kinds of a body's text. Version 2 has them all, so nothing is looked for.
pub(crate) fn has_kinds(alloc: Global, version: Version, text: &[u8]) -> Result<bool, AllocError>
    requires { length text.now ≤ LONGEST_BODY }
    ensures { IfOk result (λ has. has ≡ spec.has_kinds version text.now) }
{
    match version {
        Version::One => {
            let spots = tokens(alloc, text)?;
            Ok(all_suit(version, spots.as_slice()))
        }
        Version::Two => Ok(true),
    }
}
