//! How what came of a script differs from what its case says.

use crate::scripts::case::Case;
use dio_core::{MemSink, NEWLINE};
use std::alloc::{AllocError, Global};
use std::fmt;

/// How what came differs from what was wanted.
#[derive(Drop)]
pub enum Difference {
    /// The status.
    Status { wanted: u8, came: u8 },
    /// The first line of the replies that differs.
    Reply { wanted: String, came: String },
    /// The replies are as they are wanted, and were not passed on.
    HeldBack,
}

impl fmt::Display for Difference {
    fn fmt<W: fmt::Write>(&self, f: &mut fmt::Formatter<W>) -> fmt::Result {
        match self {
            Difference::Status { wanted, came } => {
                write!(f, "the status {wanted} was wanted, and {came} came")
            }
            Difference::Reply { wanted, came } => {
                write!(f, "`{wanted}` was wanted, and `{came}` came")
            }
            Difference::HeldBack => write!(f, "what was written was not passed on"),
        }
    }
}

/// How what came differs from what the case says, if it does: the status, and the sink with the replies.
pub fn find_difference(
    alloc: Global,
    case: &Case,
    status: u8,
    sink: &MemSink,
) -> Result<Option<Difference>, AllocError> {
    let wanted = case.replies.as_slice();
    let came = compared(case, sink.taken());
    if wanted != came {
        return Ok(Some(first_that_differs(alloc, wanted, came)?));
    }
    if status != case.status {
        return Ok(Some(Difference::Status {
            wanted: case.status,
            came: status,
        }));
    }
    if sink.passed() != sink.taken() {
        return Ok(Some(Difference::HeldBack));
    }
    Ok(None)
}

/// What of the replies is compared: all, or as many bytes at the end as the case says.
fn compared<'a>(case: &Case, replies: &'a [u8]) -> &'a [u8] {
    if !case.are_last {
        return replies;
    }
    let before = replies.len().saturating_sub(case.replies.len());
    &replies[before..]
}

/// The first line that differs.
fn first_that_differs(alloc: Global, wanted: &[u8], came: &[u8]) -> Result<Difference, AllocError> {
    let wanted = wanted.split(|byte| *byte == NEWLINE);
    let came = came.split(|byte| *byte == NEWLINE);
    let lines = wanted.zip(came).find(|(wanted, came)| wanted != came);
    let (wanted, came) = lines.unwrap_or((b"", b""));
    Ok(Difference::Reply {
        wanted: String::from_utf8_lossy(alloc, wanted)?,
        came: String::from_utf8_lossy(alloc, came)?,
    })
}
