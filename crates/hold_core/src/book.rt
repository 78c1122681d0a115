//! The book of a journal's live holds: whom they bar, and how the journal's next commit is entered.

ghost use Rattle.std.specs.Prelude.{◌≡◌, ◌+◌, ◌<◌, ◌≤◌, ◌++◌, true, length, IfOk};
ghost use Rattle.std.specs.Vec.{vec_capacity};
ghost use Rattle.journal_core.specs.Holds.{bars_of, new_hold};
ghost use Rattle.journal_core.specs.Journals.{CanAdd, AddsBelow, IfDiskFault};
ghost use Rattle.hold_core.specs.Books.{first_holding, with_commit, most_hits, IsBookOf, IsEnteredWith};

use crate::ending::end_by;
use crate::indexed::IndexedSeen;
use crate::telling::is_hold;
use crate::watched::Watched;
use conflict_table::Steps;
use journal_core::{Appended, Barred, HOLD_LASTS, Journal, Keep, Slot};
use rdt_types::DeltaMap;
use std::alloc::{AllocError, Global};
use std::marker::Model;
use std::sync::ledger::Ledger;
use txn_lang::Commit;

/// The live holds of a journal, by rising numbers. It has memory for as many as can be live at once.
#[derive(Drop)]
pub struct HoldBook {
    from: u64,
    length: u64,
    holds: Vec<Watched>,
}

impl Model for HoldBook {
    ghost use Rattle.std.specs.Vec.{vec_capacity};
    ghost use Rattle.journal_core.specs.contracts.hold.Hold as hold;
    ghost use Rattle.hold_core.specs.Books.{Holding, holding_code};
    ghost use Rattle.hold_core.specs.code.Kept.{AreKept};

    ghost Value = { Holding };

    ghost coded = { holding_code hold.the_row.coded };

    ghost view = { λ b. record { from = b.from; length = b.length; holds = b.holds.items } };

    ghost invariant = { λ b. AreKept b.length b.holds.items (vec_capacity b.holds) };
}

impl HoldBook {
    /// The book of a journal of so many commits, which nobody ran again, and none of which is a hold. It takes memory for all
    /// that can be live at once.
    pub fn new(alloc: Global, from: u64) -> Result<HoldBook, AllocError>
        ensures { IfOk result (λ book. book ≡ first_holding from) }
    {
        let holds = Vec::with_capacity(alloc, HOLD_LASTS as usize)?;
        Ok(HoldBook {
            from,
            length: from,
            holds,
        })
    }

    /// The live hold that bars a client's deltas: the least of another client that they disturb, unless the client has an
    /// earlier one. It is never refused for want of memory, and tests no observation but those at addresses that are written.
    pub fn bars<L: Ledger>(
        &self,
        client: u32,
        deltas: &DeltaMap,
        steps: &mut Steps<L>,
    ) -> Option<Barred>
        ensures bars { result ≡ bars_of self.now.holds client deltas.now }
        ensures steps { steps.new ≤ steps.old + most_hits self.now.holds deltas.now }
    {
        first_bar(self.holds.as_slice(), client, deltas, steps)
    }

    /// The book of the journal with a further commit, whose body observes these where it stands: holds that it ends are gone,
    /// and it is the last itself where it is one. It is never refused for want of memory.
    pub fn added(&mut self, commit: &Commit, observations: IndexedSeen)
        requires next { commit.now.number ≡ self.old.length + 1 }
        ensures { self.new ≡ with_commit self.old commit.now observations }
    {
        end_by(&mut self.holds, commit);
        self.length = commit.number;
        begin_by(&mut self.holds, self.from, commit, observations);
    }
}

/// The first hold that deltas disturb, unless the client has an earlier one.
fn first_bar<L: Ledger>(
    holds: &[Watched],
    client: u32,
    deltas: &DeltaMap,
    steps: &mut Steps<L>,
) -> Option<Barred>
    ensures bars { result ≡ bars_of holds.now client deltas.now }
    ensures steps { steps.new ≤ steps.old + most_hits holds.now deltas.now }
{
    for hold in holds {
        if hold.client() == client {
            return None;
        }
        if hold.is_disturbed(deltas, steps) {
            return Some(Barred {
                client: hold.client(),
                at: hold.number(),
            });
        }
    }
    None
}

/// Adds the hold that a commit is, if it is one. There is memory for it.
fn begin_by(holds: &mut Vec<Watched>, from: u64, commit: &Commit, observations: IndexedSeen)
    requires room { length holds.old.items < vec_capacity holds.old }
    ensures more { holds.new.items ≡ holds.old.items ++ new_hold from commit.now observations }
    ensures capacity { vec_capacity holds.old ≤ vec_capacity holds.new }
{
    if is_hold(from, commit) {
        let hold = Watched::new(commit.client, commit.number, observations);
        let pushed = holds.push(hold);
        prove!(pushed.is_ok());
    }
}

/// Adds the commit of a slot, where the journal takes one more, and enters it in the book. That nothing clashes with it, and
/// that no hold bars it, the caller has asked.
pub fn enter<K: Keep>(
    journal: &mut Journal<K>,
    holds: &mut HoldBook,
    slot: Slot,
    observations: IndexedSeen,
) -> Appended
    requires can_add { CanAdd K.stands_for slot journal.old }
    requires book { IsBookOf holds.old journal.old.commits }
    requires observed { IsEnteredWith holds.old.from journal.old.commits slot.commit observations }
    ensures adds { AddsBelow slot.commit journal.old result journal.new }
    ensures may_fail { IfDiskFault result (K.may_fail ≡ true) }
    ensures book { IsBookOf holds.new journal.new.commits }
    ensures from { holds.new.from ≡ holds.old.from }
{
    let appended = journal.append_clear(slot);
    if let Appended::Number(number) = appended {
        let Some(commit) = journal.commit(number) else {
            unreachable!();
        };
        holds.added(commit, observations);
    }
    appended
}
