//! Why a shard doesn't answer the value at a number.

use std::alloc::AllocError;

/// Why there is no value at a number.
#[derive(Debug, Drop)]
pub enum AtError {
    /// The number, which is below the horizon, and the horizon.
    Late(u64, u64),
    /// There was no memory for the value.
    NoMemory,
}

impl From<AllocError> for AtError {
    ghost use Rattle.std.specs.Prelude.{◌≡◌};
    ghost use Rattle.version_shard.specs.declared.at_error.AtError.TheVariants.{NoMemory};

    ghost from_gives = { λ _ error. error ≡ NoMemory };

    fn from(_error: AllocError) -> AtError {
        AtError::NoMemory
    }
}
