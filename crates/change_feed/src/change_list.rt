//! Changes in order.

ghost use Rattle.std.specs.Prelude.{◌≡◌, ◌++◌, ◌∷◌, [], OnOk, OnErr, IfOk};
ghost use Rattle.change_feed.specs.Lists.{listed};

use crate::change::Change;
use crate::changes::Changes;
use crate::segment::Segment;
use plain_data::Sequence;
use std::alloc::{AllocError, Global};
use std::marker::Model;

/// Changes in the order of their commits: segments that are shared, and a last piece of its own.
#[derive(Debug, Drop)]
pub struct ChangeList {
    skipped: usize,
    sealed: Sequence<Segment>,
    last: Sequence<Change>,
}

impl Model for ChangeList {
    ghost use Rattle.std.specs.Prelude.{List};
    ghost use Rattle.std.specs.Coded.{coded_list};
    ghost use Rattle.change_feed.specs.declared.change.Change.{Change};
    ghost use Rattle.change_feed.specs.contracts.change.Change as change;
    ghost use Rattle.change_feed.specs.Segments.{IsInFirst, in_pieces};

    ghost Value = { List Change };

    ghost coded = { coded_list change.the_row.coded };

    ghost view = { λ l. in_pieces l.skipped l.sealed l.last };

    ghost invariant = { λ l. IsInFirst l.skipped l.sealed };
}

impl ChangeList {
    /// No changes. It is never refused for want of memory.
    pub fn new(alloc: Global) -> ChangeList
        ensures { result ≡ [] }
    {
        ChangeList {
            skipped: 0,
            sealed: Sequence::new(alloc),
            last: Sequence::new(alloc),
        }
    }

    /// The changes of a `Vec`, in its own memory.
    pub fn from_vec(changes: Vec<Change>) -> ChangeList
        ensures { result ≡ changes.items }
    {
        ChangeList {
            skipped: 0,
            sealed: Sequence::new(*changes.allocator()),
            last: Sequence::from_vec(changes),
        }
    }

    /// Adds a change at the end. For want of memory it is dropped.
    pub fn push(&mut self, change: Change) -> Result<(), AllocError>
        ensures ok { OnOk result (self.new ≡ self.old ++ change ∷ []) }
        ensures err { OnErr result (self.new ≡ self.old) }
    {
        self.last.push(change)
    }

    /// The changes, lent.
    pub fn lend(&self) -> Changes<'_>
        ensures { listed result ≡ self.now }
    {
        Changes {
            skipped: self.skipped,
            sealed: self.sealed.as_slice(),
            last: self.last.as_slice(),
        }
    }
}

impl Changes<'_> {
    /// The same changes as a list, which shares the segments and copies what is behind them.
    pub fn share(&self, alloc: Global) -> Result<ChangeList, AllocError>
        ensures { IfOk result (λ list. list ≡ listed self.now) }
    {
        let mut sealed = Sequence::new(alloc);
        sealed.extend_cloned(self.sealed)?;
        let mut last = Sequence::new(alloc);
        last.extend_cloned(self.last)?;
        Ok(ChangeList {
            skipped: self.skipped,
            sealed,
            last,
        })
    }
}
