//! What lies under the journal's lock: the journal with the book of its live holds, and how many appends its keeper denied.

ghost use Rattle.std.specs.Prelude.{◌≡◌, ◌≤◌, true, length, IfOk, OnErr, IfSome};
ghost use Rattle.journal_core.specs.Changes.{changes, between, of_address, of_shard};
ghost use Rattle.journal_core.specs.Journals.{CanAdd};
ghost use Rattle.journal_core.specs.Kinds.{HasKinds};
ghost use Rattle.journal_core.specs.Pairs.{AreNumbered};
ghost use Rattle.journal_core.specs.Tails.{HasAll};
ghost use Rattle.hold_core.specs.Books.{IsBookOf, IsEnteredWith};
ghost use Rattle.diamond_store.specs.Books.{denials_after, numbers, IsAtMostRise};
ghost use Rattle.diamond_store.specs.Numbers.{numbers_with};
ghost use Rattle.diamond_store.specs.Settling.{AddsOne, CanSettle, HasSettled, IsAsBefore, Settles, IfDenied};

use crate::decision::{Decision, counted};
use change_feed::Tail;
use conflict_table::Steps;
use history_lock::Stands;
use hold_core::{HoldBook, IndexedSeen, enter, seen_to_hold};
use journal_core::{Appended, Journal, Keep, Ready, Slot};
use rdt_types::{Address, Settings};
use std::alloc::{AllocError, Global};
use std::marker::{Brand, Model};
use std::sync::ledger::{Blank, Ledger};
use txn_lang::{Commit, CommitList};

/// The journal of a store with the book of its live holds, and how many appends its keeper denied. It lies under the store's
/// lock.
#[derive(Drop)]
pub struct Book<K: Keep> {
    alloc: Global,
    journal: Journal<K>,
    // The live holds of the journal.
    holds: HoldBook,
    settings: Settings,
    // How long the journal is.
    entries: u64,
    denials: u64,
    first_faults: u64,
}

impl<K: Keep> Model for Book<K> {
    ghost use Rattle.std.specs.Prelude.{◌≡◌, length};
    ghost use Rattle.txn_lang.specs.contracts.commit.Commit as commit;
    ghost use Rattle.journal_core.specs.Journals.{standing_code};
    ghost use Rattle.hold_core.specs.Books.{IsBookOf};
    ghost use Rattle.diamond_store.specs.Books.{Booked, booked_code, IsAtMostRise};

    ghost Value = { Booked };

    ghost coded = { booked_code (standing_code commit.the_row.coded) };

    ghost view = { λ b. record { journal = b.journal; window = b.settings.window; from = b.holds.from; denials = b.denials; first = b.first_faults } };

    ghost invariant = { λ b. record {
      shards : b.journal.shards ≡ b.settings.shards;
      limit : b.journal.limit ≡ b.settings.limit;
      entries : b.entries ≡ length b.journal.commits;
      holds : IsBookOf b.holds b.journal.commits;
      counted : IsAtMostRise b.first_faults b.denials b.journal.faults;
    } };
}

impl<K: Keep> Stands for Book<K> {
    ghost use Rattle.diamond_store.specs.Books.{numbers};
    ghost use Rattle.diamond_store.specs.Following.{Follows};

    type Entry = Commit;

    ghost list = { λ b. b.journal.commits };

    ghost count = { λ b. b.denials };

    ghost origin = { numbers };

    ghost names = { λ commit. commit.client };

    ghost may_follow = { Follows };

    fn entries(&self) -> u64 {
        self.entries
    }

    fn count(&self) -> u64 {
        self.denials
    }
}

/// Adds the slot's commit, where nothing clashes and nothing bars, or says why not.
fn extend<K: Keep>(
    journal: &mut Journal<K>,
    holds: &mut HoldBook,
    slot: Slot,
    observations: IndexedSeen,
) -> Decision
    requires can { CanAdd K.stands_for slot journal.old }
    requires holds { IsBookOf holds.old journal.old.commits }
    requires observed { IsEnteredWith holds.old.from journal.old.commits slot.commit observations }
    ensures adds { AddsOne slot.commit journal.old result journal.new }
    ensures holds { IsBookOf holds.new journal.new.commits }
    ensures from { holds.new.from ≡ holds.old.from }
    ensures may_fail { IfDenied result (K.may_fail ≡ true) }
{
    match enter(journal, holds, slot, observations) {
        Appended::Number(number) => Decision::Number(number),
        Appended::Clash(_) => unreachable!(),
        Appended::Full(limit) => Decision::Full(limit),
        Appended::DiskFault(_, _) => Decision::Denied,
    }
}

/// Adds the commit of what is ready to the journal, or says why not. For want of memory the commits are as before.
fn decide<K: Keep, L: Ledger>(
    blank: Blank,
    alloc: Global,
    journal: &mut Journal<K>,
    holds: &mut HoldBook,
    ready: &Ready,
) -> Result<Decision, AllocError>
    requires name { blank.name ≡ L.name }
    requires parts { blank.parts ≡ L.parts }
    requires one { blank.parts ≡ 1 }
    requires can { CanSettle journal.old.shards ready.now journal.old.commits }
    requires holds { IsBookOf holds.old journal.old.commits }
    ensures settled { IfOk result (λ decision. HasSettled holds.old.from ready.now journal.old decision journal.new) }
    ensures holds { IsBookOf holds.new journal.new.commits }
    ensures from { holds.new.from ≡ holds.old.from }
    ensures err { OnErr result (IsAsBefore journal.old journal.new) }
    ensures may_fail { IfOk result (λ decision. IfDenied decision (K.may_fail ≡ true)) }
{
    let slot = journal.reserve(ready)?;
    let observations = seen_to_hold(alloc, &ready.run)?;
    let mut steps = Steps::<L>::new(blank);
    if let Some(found) = journal.clashes(ready, &mut steps) {
        let witness = journal.witness(ready, &found)?;
        return Ok(Decision::Clash(witness));
    }
    if let Some(barred) = holds.bars(ready.client, &ready.run.deltas, &mut steps) {
        return Ok(Decision::Held(barred));
    }
    Ok(extend(journal, holds, slot, observations))
}

impl<K: Keep> Book<K> {
    /// The book of a journal of the commits that are kept already.
    pub(crate) fn new(
        alloc: Global,
        settings: &Settings,
        keeper: K,
        kept: CommitList,
    ) -> Result<Book<K>, AllocError>
        requires numbered { AreNumbered kept }
        requires kinds { HasKinds kept }
        requires told { IfSome (K.kept keeper) (λ list. list ≡ kept) }
        ensures commits { IfOk result (λ book. book.journal.commits ≡ kept) }
        ensures denials { IfOk result (λ book. book.denials ≡ 0) }
        ensures numbers { IfOk result (λ book.
            numbers book ≡ numbers_with settings.now (K.keep_faults keeper) (length kept) (K.home keeper)) }
    {
        let first_faults = keeper.keep_faults();
        let journal = Journal::new(alloc, settings, keeper, kept)?;
        let entries = journal.length();
        let holds = HoldBook::new(alloc, entries)?;
        Ok(Book {
            alloc,
            journal,
            holds,
            settings: *settings,
            entries,
            denials: 0,
            first_faults,
        })
    }

    /// Adds the commit of what is ready, or says why not. A denial is counted. For want of memory the commits are as
    /// before.
    pub(crate) fn append(&mut self, ready: &Ready) -> Result<Decision, AllocError>
        requires can { CanSettle self.old.journal.shards ready.now self.old.journal.commits }
        ensures settles { IfOk result (λ decision.
            Settles self.old.from self.old.journal.shards self.old.journal.limit ready.now self.old.journal.commits decision
            self.new.journal.commits) }
        ensures denials { IfOk result (λ decision. self.new.denials ≡ denials_after self.old.denials decision) }
        ensures err { OnErr result (self.new.journal.commits ≡ self.old.journal.commits) }
        ensures err_denials { OnErr result (self.new.denials ≡ self.old.denials) }
        ensures numbers { numbers self.new ≡ numbers self.old }
        ensures may_fail { IfOk result (λ decision. IfDenied decision (K.may_fail ≡ true)) }
    {
        let decision = decide::<K, Brand>(
            Blank::new(1),
            self.alloc,
            &mut self.journal,
            &mut self.holds,
            ready,
        )?;
        self.entries = self.journal.length();
        self.denials = counted(&decision, self.denials);
        Ok(decision)
    }

    /// The changes in a shard, of commits past one number and up to another.
    pub(crate) fn tail(&self, shard: u8, from: u64, to: u64) -> Result<Tail, AllocError>
        requires order { from ≤ to }
        requires within { to ≤ length self.now.journal.commits }
        ensures { IfOk result (HasAll from to (of_shard self.now.journal.shards shard (between from to (changes self.now.journal.commits)))) }
    {
        self.journal.tail(shard, from, to)
    }

    /// The changes at an address, of commits past one number and up to another.
    pub(crate) fn tail_at(&self, address: &Address, from: u64, to: u64) -> Result<Tail, AllocError>
        requires order { from ≤ to }
        requires within { to ≤ length self.now.journal.commits }
        ensures { IfOk result (HasAll from to (of_address address.now (between from to (changes self.now.journal.commits)))) }
    {
        self.journal.tail_of(address, from, to)
    }

    /// All changes of commits past one number and up to another.
    pub(crate) fn tail_all(&self, from: u64, to: u64) -> Result<Tail, AllocError>
        requires order { from ≤ to }
        requires within { to ≤ length self.now.journal.commits }
        ensures { IfOk result (HasAll from to (between from to (changes self.now.journal.commits))) }
    {
        self.journal.tail_all(from, to)
    }

    /// The keeper, and the commits. It is never refused for want of memory.
    pub(crate) fn close(self) -> (K, CommitList)
        ensures commits { result.1 ≡ self.journal.commits }
        ensures kept { IfSome (K.kept result.0) (λ list. list ≡ self.journal.commits) }
        ensures counted { IsAtMostRise self.first self.denials (K.keep_faults result.0) }
        ensures home { K.home result.0 ≡ self.journal.home }
    {
        let Book { journal, .. } = self;
        journal.close()
    }
}
