//! The text of a body that is to be committed.

ghost use Rattle.std.specs.Prelude.{◌≡◌, false, Err, IfOk};
ghost use Rattle.journal_core.specs.Bodies as bodies;
ghost use Rattle.remote_service.specs.declared.error.ServiceError.TheVariants as errors;
ghost use Rattle.remote_service.specs.Anew as spec;
ghost use Rattle.remote_service.specs.code.Finds.{Finds};

use crate::error::ServiceError;
use crate::refusing::{of_check, of_parse};
use dtext::is_blank;
use journal_core::LONGEST_BODY;
use plain_data::{Text, copied};
use std::alloc::Global;
use txn_lang::{Checked, check};
use txn_parse::parse;

/// Whether the last byte is a blank.
fn ends_in_blank(text: &[u8]) -> bool
    ensures { result ≡ bodies.ends_in_blank text.now }
{
    match text.last() {
        Some(last) => is_blank(*last),
        None => false,
    }
}

/// Whether a text is one as bodies are kept.
fn is_body_text(text: &[u8]) -> bool
    ensures { result ≡ spec.is_body_text text.now }
{
    text.len() <= LONGEST_BODY && !ends_in_blank(text)
}

/// The body that such a text is.
pub(crate) fn body_of(alloc: Global, text: &Text) -> Result<Checked, ServiceError>
    ensures body { Finds (λ checked. checked.body) result (spec.body_of text.now) }
    ensures source { IfOk result (λ checked. checked.source ≡ text.now) }

    // A text as no body is kept is malformed.
    ensures unkept { spec.is_body_text text.now ≡ false → result ≡ Err errors.Malformed }
{
    if !is_body_text(text.as_slice()) {
        return Err(ServiceError::Malformed);
    }
    let body = match parse(alloc, text.as_slice()) {
        Ok(body) => body,
        Err(error) => return Err(of_parse(error)),
    };
    match check(alloc, body, copied(text)?, false) {
        Ok(checked) => Ok(checked),
        Err(error) => Err(of_check(error)),
    }
}
