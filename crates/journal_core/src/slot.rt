//! A commit with all that it takes to add it.

ghost use Rattle.std.specs.Prelude.{◌≡◌};
ghost use Rattle.journal_core.specs.Changes.{changes_of};

use change_feed::Change;
use plain_data::{Sequence, Text};
use txn_lang::Commit;

/// A commit that was made of a [`Ready`](crate::Ready), with its bytes as a keeper made them, and its changes.
#[derive(Debug, Drop)]
pub struct Slot {
    pub commit: Commit,
    pub bytes: Text,
    pub changes: Sequence<Change>,
    pub ghost all_changes: { changes ≡ changes_of commit },
}
