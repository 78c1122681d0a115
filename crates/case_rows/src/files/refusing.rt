//! A file that is no journal.

use crate::files::difference::{Difference, Found};
use crate::files::recovering::{reads_alone, recovery_of};
use plain_data::Text;
use std::alloc::{AllocError, Global};

/// What is made of a file that is no journal.
#[derive(Drop)]
pub struct Refused {
    /// How it differs, if it does.
    pub difference: Option<Difference>,
    /// What a recovery leaves of the file.
    pub left: Text,
}

/// How it differs what is made of a file that is no journal from there on, by a recovery and by who only reads. A copy of it is
/// then what a recovery leaves.
fn find_made(
    alloc: Global,
    file: &[u8],
    left: &mut Text,
    at: u64,
) -> Result<Option<Difference>, AllocError> {
    let found = recovery_of(alloc, left, &[])?;
    if found != Found::NotJournal(at) {
        return Ok(Some(Difference::Found(found)));
    }
    Ok(if reads_alone(alloc, file, &[], found)? {
        None
    } else {
        Some(Difference::Reading)
    })
}

/// What is made of a file that is no journal from there on, by a recovery and by who only reads.
pub(crate) fn make_refused(alloc: Global, file: &[u8], at: u64) -> Result<Refused, AllocError> {
    let mut left = Text::from_slice(alloc, file)?;
    let difference = find_made(alloc, file, &mut left, at)?;
    Ok(Refused { difference, left })
}
