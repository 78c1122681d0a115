//! Why a line was not answered.

use docc_prepare::StoreError;
use std::alloc::AllocError;

/// Why a line was not answered. The session is over then.
#[derive(Clone, Copy, Debug, PartialEq, Eq)]
pub enum SessionError {
    /// The store failed, and counted it.
    StoreFault,
    NoMemory,
}

impl From<AllocError> for SessionError {
    ghost use Rattle.std.specs.Prelude.{◌≡◌};
    ghost use Rattle.session_core.specs.declared.error.SessionError.TheVariants.{NoMemory};

    ghost from_gives = { λ _ e. e ≡ NoMemory };

    fn from(_: AllocError) -> SessionError {
        SessionError::NoMemory
    }
}

impl From<StoreError> for SessionError {
    ghost use Rattle.std.specs.Prelude.{◌≡◌};
    ghost use Rattle.session_core.specs.Errors.{error_of};

    ghost from_gives = { λ error e. e ≡ error_of error };

    fn from(error: StoreError) -> SessionError {
        match error {
            StoreError::Fault => SessionError::StoreFault,
            StoreError::NoMemory => SessionError::NoMemory,
        }
    }
}
