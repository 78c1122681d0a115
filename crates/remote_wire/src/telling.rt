//! What is told of what was read, or of why it wasn't.

ghost use Rattle.std.specs.Prelude.{◌≡◌};
ghost use Rattle.remote_wire.specs.code.Told as spec;

use crate::wire_error::WireError;
use record_code::FieldError;

/// Why bytes aren't read. What is malformed is never told as want of memory.
pub fn of_field(error: FieldError) -> WireError
    ensures { result ≡ spec.of_field error }
{
    match error {
        FieldError::Malformed => WireError::BadWire,
        FieldError::NoMemory => WireError::NoMemory,
    }
}

/// What was read, where nothing is left behind it. A byte that is left is never told as want of memory.
pub fn only<T: Drop>(value: T, rest: &[u8]) -> Result<T, WireError>
    ensures { result ≡ spec.only value rest.now }
{
    match rest {
        [] => Ok(value),
        [_, ..] => Err(WireError::BadWire),
    }
}
