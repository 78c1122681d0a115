//! Why a file was not recovered.

use dio_core::DiskFault;
use std::alloc::AllocError;

/// Why a file was not recovered.
#[derive(Clone, Copy, Debug, PartialEq, Eq)]
pub enum RecoverError {
    /// From this byte on the file is none of a journal.
    NotJournal(u64),
    DiskFault,
    NoMemory,
}

impl From<AllocError> for RecoverError {
    ghost use Rattle.std.specs.Prelude.{◌≡◌};
    ghost use Rattle.commit_file.specs.declared.recover_error.RecoverError.TheVariants.{NoMemory};

    ghost from_gives = { λ _ e. e ≡ NoMemory };

    fn from(_: AllocError) -> RecoverError {
        RecoverError::NoMemory
    }
}

impl From<DiskFault> for RecoverError {
    ghost use Rattle.std.specs.Prelude.{◌≡◌};
    ghost use Rattle.commit_file.specs.declared.recover_error.RecoverError.TheVariants as error;

    ghost from_gives = { λ _ e. e ≡ error.DiskFault };

    fn from(_: DiskFault) -> RecoverError {
        RecoverError::DiskFault
    }
}
