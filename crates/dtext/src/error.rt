//! Why a reader gives nothing.

use std::alloc::AllocError;

/// Why bytes were not read.
#[derive(Clone, Copy, Debug, PartialEq, Eq)]
pub enum TextError {
    /// They are no spelling: the column of the first byte with which no spelling goes on, counted from 1, or the one
    /// behind the last byte where they end too early.
    At(u32),
    NoMemory,
}

impl From<AllocError> for TextError {
    ghost use Rattle.std.specs.Prelude.{◌≡◌};
    ghost use Rattle.dtext.specs.declared.error.TextError.TheVariants.{NoMemory};

    ghost from_gives = { λ _ e. e ≡ NoMemory };

    fn from(_: AllocError) -> TextError {
        TextError::NoMemory
    }
}
