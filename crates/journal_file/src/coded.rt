//! The bytes that stand for a commit behind a gate.

ghost use Rattle.std.specs.Prelude.{IfOk};
ghost use Rattle.commit_file.specs.Keepers.{IsSpelled};
ghost use Rattle.journal_file.specs.Keepers.{IsCoded};

use journal_core::FIRST_UNTOLD_CLIENT;
use plain_data::Text;
use record_code::encode;
use std::alloc::{AllocError, Global};
use txn_lang::Commit;

/// The gate behind a payload, which is closed.
const CLOSED: u8 = 0;

/// A payload behind its length, and a closed gate behind it. One whose length four bytes don't tell is answered as want
/// of memory.
fn spelled(alloc: Global, payload: &[u8]) -> Result<Text, AllocError>
    ensures { IfOk result (λ bytes. IsSpelled bytes payload.now) }
{
    let Ok(length) = u32::try_from(payload.len()) else {
        return Err(AllocError);
    };
    let mut bytes = Text::from_slice(alloc, &length.to_be_bytes())?;
    bytes.extend_from_slice(payload)?;
    bytes.push(CLOSED)?;
    Ok(bytes)
}

/// The bytes that stand for a commit. With the commit of a client whose number no journal tells, the file would be none
/// of a journal, so it is answered as want of memory.
pub(crate) fn coded(alloc: Global, commit: &Commit) -> Result<Text, AllocError>
    ensures { IfOk result (λ bytes. IsCoded bytes commit.now) }
{
    if commit.client >= FIRST_UNTOLD_CLIENT {
        return Err(AllocError);
    }
    let payload = encode(alloc, commit)?;
    spelled(alloc, payload.as_slice())
}
