//! Why a service gives no answer.

use std::alloc::AllocError;

/// Why a service gives no answer.
#[derive(Clone, Copy, Debug, PartialEq, Eq)]
pub enum ServiceError {
    /// The bytes are no request, or one that may not be made.
    Malformed,
    /// The store failed, and counted it.
    StoreFault,
    NoMemory,
}

impl From<AllocError> for ServiceError {
    ghost use Rattle.std.specs.Prelude.{◌≡◌};
    ghost use Rattle.remote_service.specs.declared.error.ServiceError.TheVariants.{NoMemory};

    ghost from_gives = { λ _ e. e ≡ NoMemory };

    fn from(_: AllocError) -> ServiceError {
        ServiceError::NoMemory
    }
}
