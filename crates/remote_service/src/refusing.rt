//! Why there is no answer. What is malformed is never told as want of memory.

ghost use Rattle.std.specs.Prelude.{◌≡◌};
ghost use Rattle.remote_service.specs.code.Refusing as spec;

use crate::error::ServiceError;
use remote_wire::WireError;
use txn_lang::CheckError;
use txn_parse::ParseError;

/// Bytes that aren't read as a request.
pub(crate) fn of_wire(error: WireError) -> ServiceError
    ensures { result ≡ spec.of_wire error }
{
    match error {
        WireError::BadWire => ServiceError::Malformed,
        WireError::NoMemory => ServiceError::NoMemory,
    }
}

/// A text that isn't parsed.
pub(crate) fn of_parse(error: ParseError) -> ServiceError
    ensures { result ≡ spec.of_parse error }
{
    match error {
        ParseError::Syntax(_column) => ServiceError::Malformed,
        ParseError::NoMemory => ServiceError::NoMemory,
    }
}

/// A body that isn't accepted.
pub(crate) fn of_check(error: CheckError) -> ServiceError
    ensures { result ≡ spec.of_check error }
{
    match error {
        CheckError::BadType(_column) => ServiceError::Malformed,
        CheckError::Writes(_column) => ServiceError::Malformed,
        CheckError::NoMemory => ServiceError::NoMemory,
    }
}

/// What was found, or that nothing was.
pub(crate) fn found<T>(value: Option<T>) -> Result<T, ServiceError>
    ensures { result ≡ spec.found value }
{
    match value {
        Some(value) => Ok(value),
        None => Err(ServiceError::Malformed),
    }
}
