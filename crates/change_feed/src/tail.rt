//! The changes between two numbers of a journal.

ghost use Rattle.std.specs.Prelude.{◌≡◌, []};
ghost use Rattle.change_feed.specs.Tails.{IsTail};

use crate::change_list::ChangeList;
use std::alloc::Global;

/// Changes of commits past one number and up to another, in order.
#[derive(Debug, Drop)]
pub struct Tail {
    pub from: u64,
    pub to: u64,
    pub changes: ChangeList,
    pub ghost in_order: { IsTail from to changes },
}

impl Tail {
    /// No changes, behind a number. It is never refused for want of memory.
    pub fn none(alloc: Global, at: u64) -> Tail
        ensures from { result.from ≡ at }
        ensures to { result.to ≡ at }
        ensures changes { result.changes ≡ [] }
    {
        Tail {
            from: at,
            to: at,
            changes: ChangeList::new(alloc),
        }
    }
}
