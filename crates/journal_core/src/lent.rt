//! Changes lent by a journal.

ghost use Rattle.std.specs.Prelude.{◌≡◌};
ghost use Rattle.change_feed.specs.Lists.{listed};
ghost use Rattle.change_feed.specs.Tails.{IsTail};

use change_feed::Changes;
use std::marker::Model;

/// Changes that stand in a journal still, in segments. Contracts see them as a slice that is lent: `now` is the list of them.
#[derive(Drop)]
pub struct LentChanges<'a> {
    pieces: Changes<'a>,
}

impl<'a> Model for LentChanges<'a> {
    ghost use Rattle.change_feed.specs.contracts.change.Change as change;
    ghost use Rattle.change_feed.specs.Lists.{listed};
    ghost use Rattle.journal_core.specs.Lent.{Lent, lent_code};

    ghost Value = { Lent };

    ghost coded = { lent_code change.the_row.coded };

    ghost view = { λ l. record { now = listed l.pieces } };
}

impl<'a> LentChanges<'a> {
    /// Changes in pieces, as one list.
    pub fn of(pieces: Changes<'a>) -> LentChanges<'a>
        ensures { result.now ≡ listed pieces.entry }
    {
        LentChanges { pieces }
    }

    /// The same changes in pieces, to be read one after another.
    pub fn pieces(&self) -> Changes<'a>
        ensures { listed result ≡ self.now.now }
    {
        self.pieces
    }
}

/// A tail whose changes stand in the journal still, so that none is copied.
#[derive(Drop)]
pub struct LentTail<'a> {
    pub from: u64,
    pub to: u64,
    pub changes: LentChanges<'a>,
    pub ghost in_order: { IsTail from to changes.now },
}
