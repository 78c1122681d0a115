//! The journal, and the decision by which a transaction becomes its next commit or is refused.

ghost use Rattle.std.specs.Prelude.{◌≡◌, ◌+◌, ◌≤◌, true, length, slice_get, Option, Some, OnErr, IfOk, IfSome};
ghost use Rattle.std.specs.Option.{option_copied};
ghost use Rattle.rdt_types.specs.declared.settings.Settings.{Settings};
ghost use Rattle.journal_core.specs.Changes as spec;
ghost use Rattle.journal_core.specs.Pairs.{AreNumbered};
ghost use Rattle.journal_core.specs.Tails.{HasAll, HasAllIn, HasAllAt, tail_of};
ghost use Rattle.journal_core.specs.Kinds.{HasKinds};
ghost use Rattle.journal_core.specs.Witnesses.{AreBasedOfOneKind, IsWitnessOf};
ghost use Rattle.abort_witness.specs.Kinds.{IsOfOneKind};
ghost use Rattle.abort_witness.specs.Pairs.{HavePlaces};
ghost use Rattle.journal_core.specs.Readies as readies;
ghost use Rattle.journal_core.specs.Journals as journals;
ghost use Rattle.journal_core.specs.Journals.{CanAppend, Decides, IsSlot, IfDiskFault};

use crate::appended::Appended;
use crate::copying::changes_by;
use crate::deciding::least_past;
use crate::keep::Keep;
use crate::lent::{LentChanges, LentTail};
use crate::log::Log;
use crate::naming::witness_of;
use crate::ready::Ready;
use crate::slot::Slot;
use crate::tails::{between_in_shard, tail_of_address, tail_of_all, tail_of_shard};
use abort_witness::{Found, Witness};
use change_feed::Tail;
use conflict_table::Steps;
use plain_data::copied;
use rdt_types::{Address, Settings};
use std::alloc::{AllocError, Global};
use std::marker::Model;
use std::sync::ledger::Ledger;
use txn_lang::{Commit, CommitList};

/// The commits, numbered from 1, and the keeper behind them. Where the keeper tells, its list is the commits.
#[derive(Drop)]
pub struct Journal<K: Keep> {
    alloc: Global,
    settings: Settings,
    log: Log,
    keeper: K,
}

impl<K: Keep> Model for Journal<K> {
    ghost use Rattle.std.specs.Prelude.{◌≡◌, IfSome};
    ghost use Rattle.txn_lang.specs.contracts.commit.Commit as commit;
    ghost use Rattle.journal_core.specs.Journals as journals;

    ghost Value = { journals.Standing };

    ghost coded = { journals.standing_code commit.the_row.coded };

    ghost view = { λ j. record { commits = j.log.commits; shards = j.log.shards; limit = j.settings.limit; faults = K.keep_faults j.keeper; home = K.home j.keeper; room = j.log.room } };

    ghost invariant = { λ j. IfSome (K.kept j.keeper) (λ list. list ≡ j.log.commits) };
}

impl<K: Keep> Journal<K> {
    /// A journal of the commits that are kept already, with the settings of its store.
    pub fn new(
        alloc: Global,
        settings: &Settings,
        keeper: K,
        kept: CommitList,
    ) -> Result<Journal<K>, AllocError>
        requires numbered { AreNumbered kept }
        requires kinds { HasKinds kept }
        requires told { IfSome (K.kept keeper) (λ list. list ≡ kept) }
        ensures commits { IfOk result (λ journal. journal.commits ≡ kept) }
        ensures shards { IfOk result (λ journal. journal.shards ≡ settings.now.shards) }
        ensures limit { IfOk result (λ journal. journal.limit ≡ settings.now.limit) }
        ensures faults { IfOk result (λ journal. journal.faults ≡ K.keep_faults keeper) }
        ensures home { IfOk result (λ journal. journal.home ≡ K.home keeper) }
    {
        let log = Log::of(alloc, kept, settings.shards)?;
        Ok(Journal {
            alloc,
            settings: *settings,
            log,
            keeper,
        })
    }

    /// How many commits there are.
    pub fn length(&self) -> u64
        ensures { result ≡ length self.now.commits }
    {
        self.log.commits().len() as u64
    }

    /// The commit of a number, if there is one.
    pub fn commit(&self, number: u64) -> Option<&Commit>
        ensures { option_copied result ≡ journals.commit_at self.now.commits number }
    {
        if number == 0 {
            return None;
        }
        self.log.commits().get(number as usize - 1)
    }

    /// The keeper, and the commits. It is never refused for want of memory.
    pub fn close(self) -> (K, CommitList)
        ensures commits { result.1 ≡ self.commits }
        ensures faults { K.keep_faults result.0 ≡ self.faults }
        ensures home { K.home result.0 ≡ self.home }
        ensures kept { IfSome (K.kept result.0) (λ list. list ≡ self.commits) }
    {
        let Journal { keeper, log, .. } = self;
        (keeper, log.into_commits())
    }

    /// The changes in a shard, of commits past one number and up to another.
    pub fn tail(&self, shard: u8, from: u64, to: u64) -> Result<Tail, AllocError>
        requires order { from ≤ to }
        requires within { to ≤ length self.now.commits }
        ensures { IfOk result (HasAllIn self.now.shards shard from to self.now.commits) }
    {
        tail_of_shard(self.alloc, &self.log, shard, from, to)
    }

    /// The same changes, lent: it is never refused for want of memory.
    pub fn lend_tail(&self, shard: u8, from: u64, to: u64) -> LentTail<'_>
        requires order { from ≤ to }
        requires within { to ≤ length self.now.commits }
        ensures { HasAllIn self.now.shards shard from to self.now.commits (tail_of result) }
    {
        let changes = LentChanges::of(between_in_shard(&self.log, shard, from, to));
        LentTail { from, to, changes }
    }

    /// The changes at an address, of commits past one number and up to another.
    pub fn tail_of(&self, address: &Address, from: u64, to: u64) -> Result<Tail, AllocError>
        requires order { from ≤ to }
        requires within { to ≤ length self.now.commits }
        ensures { IfOk result (HasAllAt address.now from to self.now.commits) }
    {
        tail_of_address(self.alloc, &self.log, address, from, to)
    }

    /// All changes of commits past one number and up to another.
    pub fn tail_all(&self, from: u64, to: u64) -> Result<Tail, AllocError>
        requires order { from ≤ to }
        requires within { to ≤ length self.now.commits }
        ensures { IfOk result (HasAll from to (spec.between from to (spec.changes self.now.commits))) }
    {
        tail_of_all(self.alloc, &self.log, from, to)
    }

    /// A slot with the commit that is made of what is ready, and memory for it.
    pub fn reserve(&mut self, ready: &Ready) -> Result<Slot, AllocError>
        ensures slot { IfOk result (IsSlot K.stands_for ready.now self.new) }
        ensures same { self.new ≡ record self.old { room = self.new.room } }
        ensures kept { self.old.room ≤ self.new.room }
        ensures err { OnErr result (self.new ≡ self.old) }
    {
        let number = self.log.commits().len() as u64 + 1;
        let commit = commit_by(number, ready)?;
        let changes = changes_by(self.alloc, number, ready.run.deltas.as_slice())?;
        let bytes = self.keeper.make(self.alloc, &commit)?;
        self.log.reserve(changes.len() + 1)?;
        Ok(Slot {
            commit,
            bytes,
            changes,
        })
    }

    /// Adds the slot's commit, or says why not: by a clash past the prepared fronts, at the limit, or by a fault of the
    /// keeper. It is never refused for want of memory, and goes through no more than the changes past the fronts in
    /// the shards of the observations.
    pub fn append<L: Ledger>(&mut self, ready: &Ready, slot: Slot, steps: &mut Steps<L>) -> Appended
        requires can_append { CanAppend K.stands_for ready.now slot self.old }
        requires places { HavePlaces ready.now.based }
        ensures decides { Decides ready.now self.old result self.new }
        ensures may_fail { IfDiskFault result (K.may_fail ≡ true) }
        ensures steps { steps.new ≤ steps.old + journals.steps_past ready.now self.old }
    {
        if let Some(found) = self.clashes(ready, steps) {
            return Appended::Clash(found);
        }
        self.append_clear(slot)
    }

    /// The clash past the prepared fronts that refuses an append, the least of them, if there is one. It is never refused for want of memory.
    pub fn clashes<L: Ledger>(&self, ready: &Ready, steps: &mut Steps<L>) -> Option<Found>
        requires places { HavePlaces ready.now.based }
        ensures least { result ≡ journals.found_past ready.now self.now }
        ensures steps { steps.new ≤ steps.old + journals.steps_past ready.now self.now }
    {
        let (based, fronts) = (ready.based.as_slice(), ready.fronts.as_slice());
        if self.log.commits().is_empty() {
            return None;
        }
        least_past(based, &self.log, fronts, steps)
    }

    /// What is left of an append where nothing clashes: adds the slot's commit, or says why not, at the limit or by a fault
    /// of the keeper. It is never refused for want of memory.
    pub fn append_clear(&mut self, slot: Slot) -> Appended
        requires can_add { journals.CanAdd K.stands_for slot self.old }
        ensures adds { journals.AddsBelow slot.commit self.old result self.new }
        ensures may_fail { IfDiskFault result (K.may_fail ≡ true) }
    {
        let limit = self.settings.limit;
        if self.length() >= limit as u64 {
            return Appended::Full(limit);
        }
        let before = self.keeper.keep_faults();
        if self.keeper.keep(&slot.bytes).is_err() {
            return Appended::DiskFault(before, self.keeper.keep_faults());
        }
        let Slot {
            commit,
            changes,
            ..
        } = slot;
        let number = commit.number;
        self.log.add(commit, changes);
        Appended::Number(number)
    }

    /// The witness of the clash that an append answered, as long as nothing was added since: the observation with the
    /// base at which it was made, and the part of the commit that clashes with it. It costs the deltas of that one
    /// commit at most.
    pub fn witness(&self, ready: &Ready, found: &Found) -> Result<Witness, AllocError>
        requires found { journals.found_past ready.now self.now ≡ Some found.now }
        requires observed { AreBasedOfOneKind ready.now.based }
        ensures names { IfOk result (IsWitnessOf ready.now.based self.now.commits found.now) }
        ensures kinds { IfOk result IsOfOneKind }
    {
        witness_of(ready.based.as_slice(), self.log.commits(), found)
    }
}

/// The commit of a number that is made of what is ready.
fn commit_by(number: u64, ready: &Ready) -> Result<Commit, AllocError>
    ensures { IfOk result (λ commit. commit ≡ readies.commit_by number ready.now) }
{
    Ok(Commit {
        number,
        client: ready.client,
        seq: ready.seq,
        body: copied(&ready.body)?,
        outcome: copied(&ready.run.outcome)?,
        deltas: copied(&ready.run.deltas)?,
    })
}
