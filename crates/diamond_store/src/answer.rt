//! What the store answers to an append.

ghost use Rattle.std.specs.Prelude.{◌≡◌};
ghost use Rattle.diamond_store.specs.Decided.{answer_of};

use crate::decision::Decision;
use abort_witness::Witness;
use journal_core::Barred;

/// Why nothing was committed. They are tested in the order clash, held, full, disk.
#[derive(Debug, Drop)]
pub enum StoreAppendError {
    /// A commit clashes with an observation.
    Clash(Witness),
    /// A live hold of another client bars the commit.
    Held(Barred),
    /// The journal has as many commits as its limit, which is named.
    Full(u32),
    /// The keeper denied the commit. Of so many denials the pass knew before the call, and of so many it knows now.
    Disk(u64, u64),
    /// The store failed, and counted it. It never does.
    Fault,
    NoMemory,
}

/// What the store answers to a decision, where the pass knew of some denials and now knows of others.
pub(crate) fn answer(decision: Decision, known: u64, knows: u64) -> Result<u64, StoreAppendError>
    ensures { result ≡ answer_of decision known knows }
{
    match decision {
        Decision::Number(number) => Ok(number),
        Decision::Clash(witness) => Err(StoreAppendError::Clash(witness)),
        Decision::Held(barred) => Err(StoreAppendError::Held(barred)),
        Decision::Full(limit) => Err(StoreAppendError::Full(limit)),
        Decision::Denied => Err(StoreAppendError::Disk(known, knows)),
    }
}
