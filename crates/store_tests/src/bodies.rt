//! Bodies that are read and checked.

ghost use Rattle.std.specs.Prelude.{◌≡◌, Some, IfOk};
ghost use Rattle.std.specs.Bool.{OnTrue};
ghost use Rattle.txn_lang.specs.Tree.{tree};
ghost use Rattle.journal_core.specs.Bodies.{IsBodyText};
ghost use Rattle.journal_core.specs.Bodies as bodies;

use dtext::is_blank;
use plain_data::Text;
use std::alloc::Global;
use txn_lang::{CheckError, Checked, check};
use txn_parse::parse;

/// Whether a text's last byte is a blank.
fn ends_in_blank(text: &[u8]) -> bool
    ensures { result ≡ bodies.ends_in_blank text.now }
{
    match text {
        [] => false,
        [last] => is_blank(*last),
        [_, rest @ ..] => ends_in_blank(rest),
    }
}

/// Whether a text may be kept as a body's: it is short, and has no blank at its end.
fn is_body_text(text: &[u8]) -> bool
    ensures { OnTrue result (IsBodyText text.now) }
{
    text.len() <= 4096 && !ends_in_blank(text)
}

/// A body that is read and checked, which may be one that only reads.
pub(crate) fn checked(alloc: Global, source: &[u8], read_only: bool) -> Result<Checked, CheckError>
    ensures read { IfOk result (λ body. tree body.source ≡ Some body.body) }
    ensures body_text { IfOk result (λ body. IsBodyText body.source) }
{
    if !is_body_text(source) {
        return Err(CheckError::NoMemory);
    }
    let Ok(body) = parse(alloc, source) else {
        return Err(CheckError::NoMemory);
    };
    let Ok(text) = Text::from_slice(alloc, source) else {
        return Err(CheckError::NoMemory);
    };
    check(alloc, body, text, read_only)
}
