//! What is told of what a service answers.

ghost use Rattle.remote_direct.specs.Directing.{IsTold};
ghost use Rattle.remote_direct.specs.code.Telling.{ReadsBack, TellsAs};
ghost use Rattle.std.specs.Prelude.{◌≢◌};
ghost use Rattle.remote_service.specs.declared.error.ServiceError.TheVariants as spec_error;

use docc_prepare::StoreError;
use remote_service::ServiceError;
use remote_wire::{Request, WireAnswer, WireError, decode_answer};
use std::alloc::Global;

/// The answer to a request that these bytes are, which are one.
pub(crate) fn read_back(
    alloc: Global,
    request: &Request,
    bytes: &[u8],
) -> Result<WireAnswer, StoreError>
    requires { IsTold request.now bytes.now }
    ensures { ReadsBack request.now bytes.now result }
{
    match decode_answer(alloc, request, bytes) {
        Ok(answer) => Ok(answer),
        Err(WireError::NoMemory) => Err(StoreError::NoMemory),
        Err(WireError::BadWire) => unreachable!(),
    }
}

/// Why there is no answer. It is never that the request is malformed.
pub(crate) fn error_of(error: ServiceError) -> StoreError
    requires { error ≢ spec_error.Malformed }
    ensures { TellsAs error result }
{
    match error {
        ServiceError::StoreFault => StoreError::Fault,
        ServiceError::NoMemory => StoreError::NoMemory,
        ServiceError::Malformed => unreachable!(),
    }
}
