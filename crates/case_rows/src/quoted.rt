//! Texts that rows have in quotes, and why a row can't be read or done.

use dtext::{TextError, read_text};
use plain_data::Text;
use std::alloc::{AllocError, Global};
use std::io;

/// How many bytes a text may take in a row.
pub(crate) const LONGEST_QUOTED: usize = 65_536;

/// Why a row can't be read or done.
#[derive(Debug, Drop)]
pub enum CaseError {
    /// It says nothing that a case can have there.
    NoForm,
    /// A read or a write failed, or there was no memory.
    Fault(io::Error),
}

impl From<AllocError> for CaseError {
    fn from(error: AllocError) -> CaseError {
        CaseError::Fault(io::Error::from(error))
    }
}

impl From<io::Error> for CaseError {
    fn from(error: io::Error) -> CaseError {
        CaseError::Fault(error)
    }
}

impl From<TextError> for CaseError {
    fn from(error: TextError) -> CaseError {
        match error {
            TextError::At(_) => CaseError::NoForm,
            TextError::NoMemory => CaseError::from(AllocError),
        }
    }
}

/// The text that a row has in quotes.
pub(crate) fn text_in(alloc: Global, quoted: &str) -> Result<Text, CaseError> {
    if quoted.len() > LONGEST_QUOTED {
        return Err(CaseError::NoForm);
    }
    Ok(read_text(alloc, quoted.as_bytes())?)
}
