//! Why a line of watches was not answered.

use docc_prepare::StoreError;
use std::alloc::AllocError;

/// Why a line of watches was not answered. What is kept of them is of no use then.
#[derive(Clone, Copy, Debug, PartialEq, Eq)]
pub enum WatchError {
    /// The store failed, and counted it.
    StoreFault,
    NoMemory,
}

impl From<AllocError> for WatchError {
    ghost use Rattle.std.specs.Prelude.{◌≡◌};
    ghost use Rattle.client_watches.specs.declared.error.WatchError.TheVariants.{NoMemory};

    ghost from_gives = { λ _ e. e ≡ NoMemory };

    fn from(_: AllocError) -> WatchError {
        WatchError::NoMemory
    }
}

impl From<StoreError> for WatchError {
    ghost use Rattle.std.specs.Prelude.{◌≡◌};
    ghost use Rattle.client_watches.specs.Errors.{error_of};

    ghost from_gives = { λ error e. e ≡ error_of error };

    fn from(error: StoreError) -> WatchError {
        match error {
            StoreError::Fault => WatchError::StoreFault,
            StoreError::NoMemory => WatchError::NoMemory,
        }
    }
}
