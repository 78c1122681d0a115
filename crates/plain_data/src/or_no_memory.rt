//! Errors that have a cause, or are want of memory.

use std::alloc::AllocError;

/// A cause, or want of memory. Private code of all crates answers this; a public error of two names says both itself.
#[derive(Clone, Copy, Debug, PartialEq, Eq)]
pub enum OrNoMemory<E> {
    Cause(E),
    NoMemory,
}

impl<E> From<AllocError> for OrNoMemory<E> {
    ghost use Rattle.std.specs.Prelude.{◌≡◌};
    ghost use Rattle.plain_data.specs.declared.or_no_memory.OrNoMemory.TheVariants.{NoMemory};

    ghost from_gives = { λ _ e. e ≡ NoMemory };

    fn from(_: AllocError) -> OrNoMemory<E> {
        OrNoMemory::NoMemory
    }
}
