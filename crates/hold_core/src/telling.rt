//! Which commits are holds, and what of a run is kept for one.

ghost use Rattle.std.specs.Prelude.{◌≡◌, true, IfOk};
ghost use Rattle.journal_core.specs.Holds as holds;

use crate::indexed::IndexedSeen;
use plain_data::copied;
use rdt_types::{Item, Outcome};
use std::alloc::{AllocError, Global};
use txn_lang::{Commit, Run, SeenList};

/// Whether a run was ok and first emitted the text `hold`.
fn says_hold(outcome: &Outcome) -> bool
    ensures { result ≡ holds.says_hold outcome.now }
{
    match outcome {
        Outcome::Ok(items) => match items.as_slice() {
            [Item::Text(text), ..] => text.as_slice() == b"hold".as_slice(),
            _ => false,
        },
        _ => false,
    }
}

/// Whether a commit past the first ones, which nobody ran again, says that it is a hold and writes nothing.
pub(crate) fn is_hold(from: u64, commit: &Commit) -> bool
    ensures { result ≡ holds.is_hold from commit.now }
{
    from < commit.number && says_hold(&commit.outcome) && commit.deltas.len() == 0
}

/// The same observations once more.
pub fn copy_seen(list: &SeenList) -> Result<SeenList, AllocError>
    ensures { IfOk result (λ copy. copy ≡ list.now) }
{
    copied(list)
}

/// What a run observed, with its index, where its commit may be a hold. What is no hold isn't copied.
pub fn seen_to_hold(alloc: Global, run: &Run) -> Result<IndexedSeen, AllocError>
    ensures { IfOk result (λ s. holds.says_hold run.now.outcome ≡ true → s ≡ run.now.observations) }
{
    if says_hold(&run.outcome) {
        IndexedSeen::new(alloc, copy_seen(&run.observations)?)
    } else {
        Ok(IndexedSeen::none(alloc))
    }
}
