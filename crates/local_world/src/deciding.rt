//! The journal's decision on what is handed on, and the book of holds beside it.

ghost use Rattle.std.specs.Prelude.{◌≡◌, OnErr, IfOk};
ghost use Rattle.docc_prepare.specs.Calls.{commit_answered};
ghost use Rattle.docc_prepare.specs.Stores.{Store};
ghost use Rattle.hold_core.specs.Books.{book_of};
ghost use Rattle.local_world.specs.Deciding.{MayDecide, HasJournal, IsDecided};

use conflict_table::Steps;
use docc_prepare::AppendError;
use hold_core::{HoldBook, enter, seen_to_hold};
use journal_core::{Appended, Journal, MemKeep, Ready};
use std::alloc::{AllocError, Global};
use std::sync::ledger::{Blank, Ledger};

/// Commits what is ready, or says why not: by a clash, by a live hold of another client, or at the limit. For want of memory
/// the commits are as before; the settings always are, and the book always is the journal's.
pub(crate) fn decide<L: Ledger>(
    alloc: Global,
    blank: Blank,
    journal: &mut Journal<MemKeep>,
    holds: &mut HoldBook,
    ready: &Ready,
) -> Result<Result<u64, AppendError>, AllocError>
    requires name { blank.name ≡ L.name }
    requires parts { blank.parts ≡ L.parts }
    requires one { blank.parts ≡ 1 }
    requires may { MayDecide ready.now journal.old }
    requires book { holds.old ≡ book_of 0 journal.old.commits }
    ensures shards { journal.new.shards ≡ journal.old.shards }
    ensures limit { journal.new.limit ≡ journal.old.limit }
    ensures err { OnErr result (journal.new.commits ≡ journal.old.commits) }
    ensures book { holds.new ≡ book_of 0 journal.new.commits }
    ensures decided { IfOk result (λ answer. (s : Store) → HasJournal s journal.old
        → IsDecided s ready.now (commit_answered answer) journal.new.commits) }
{
    let slot = journal.reserve(ready)?;
    let observations = seen_to_hold(alloc, &ready.run)?;
    let mut steps = Steps::<L>::new(blank);
    if let Some(found) = journal.clashes(ready, &mut steps) {
        let witness = journal.witness(ready, &found)?;
        return Ok(Err(AppendError::Clash(witness)));
    }
    if let Some(barred) = holds.bars(ready.client, &ready.run.deltas, &mut steps) {
        return Ok(Err(AppendError::Held(barred)));
    }
    match enter(journal, holds, slot, observations) {
        Appended::Number(number) => Ok(Ok(number)),
        Appended::Full(limit) => Ok(Err(AppendError::Full(limit))),
        Appended::Clash(_) => unreachable!(),
        Appended::DiskFault(_, _) => unreachable!(),
    }
}
