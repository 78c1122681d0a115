//! Lines that are said, and lines that are answered.

use dio_core::NEWLINE;
use std::alloc::{AllocError, Global};

/// Lines with their ends.
pub(crate) fn text_of(alloc: Global, lines: &[&str]) -> Result<Vec<u8>, AllocError> {
    let mut text = Vec::new(alloc);
    for line in lines {
        text.extend_from_slice(line.as_bytes())?;
        text.push(NEWLINE)?;
    }
    Ok(text)
}

/// Adds a number.
fn add_number(alloc: Global, text: &mut Vec<u8>, number: u64) -> Result<(), AllocError> {
    let digits = number.to_string(alloc)?;
    text.extend_from_slice(digits.as_bytes())?;
    Ok(())
}

/// The line that is written at the end, of so many commits.
pub(crate) fn end_of(alloc: Global, commits: usize) -> Result<Vec<u8>, AllocError> {
    let mut text = Vec::from_slice(alloc, b"served 1 sessions 0 faulted commits ")?;
    add_number(alloc, &mut text, commits as u64)?;
    text.push(NEWLINE)?;
    Ok(text)
}

/// Adds a reply, with this number in place of each `#`.
pub(crate) fn add_reply(
    alloc: Global,
    text: &mut Vec<u8>,
    reply: &str,
    number: u64,
) -> Result<(), AllocError> {
    for byte in reply.as_bytes() {
        match *byte {
            b'#' => add_number(alloc, text, number)?,
            byte => text.push(byte)?,
        }
    }
    text.push(NEWLINE)?;
    Ok(())
}
