//! The world: a journal, the book of its live holds, shards that follow it, what each client has seen, and a registry.

ghost use Rattle.std.specs.Prelude.{◌≡◌, ◌<◌, ◌≤◌, length, IfOk, OnErr};
ghost use Rattle.rdt_types.specs.declared.limits.TheConstants.{LEAST_SHARDS, MOST_SHARDS};
ghost use Rattle.txn_lang.specs.Short.{IsShortAddress};
ghost use Rattle.docc_prepare.specs.Calls.{Call, Answer, number_answered, snap_answered, front_answered, commit_answered, value_answered, done_answered, feed_answered};
ghost use Rattle.docc_prepare.specs.Backends.{CanPrepare, CanAppend};
ghost use Rattle.docc_prepare.specs.declared.limits.TheConstants.{CLIENTS};
ghost use Rattle.docc_prepare.specs.Stores.{IsSound, first_store, followed, seen_by, known_by, HasStalled};
ghost use Rattle.local_world.specs.Stored.{store_of};
ghost use Rattle.local_world.specs.Answering.{GoesBy};

use crate::deciding::decide;
use crate::following::{follow_at, read_back, read_in, validate_in};
use crate::making::{all_entered, empty_shards, nothing_seen};
use crate::telling::{hush, take_all, tell};
use crate::view::View;
use abort_witness::BasedList;
use change_feed::Feed;
use docc_prepare::{AppendError, PrepareError, ReadAtError, StoreError};
use hold_core::HoldBook;
use journal_core::{Journal, MemKeep, Ready};
use plain_data::Sequence;
use rdt_types::{Address, Settings, Value};
use reactive_registry::Registry;
use std::alloc::{AllocError, Global};
use std::marker::{Brand, Model};
use std::sync::ledger::Blank;
use txn_lang::{CommitList, Snap};
use version_shard::{Prepared, Shard};

/// The world of one thread. Contracts see its journal, the fronts of its shards, what each client has seen, and what the
/// registry keeps of each.
#[derive(Drop)]
pub struct World {
    alloc: Global,
    settings: Settings,
    journal: Journal<MemKeep>,
    holds: HoldBook,
    shards: Vec<Shard>,
    seens: Sequence<u64>,
    registry: Registry,
}

impl Model for World {
    ghost use Rattle.txn_lang.specs.contracts.commit.Commit as commit;
    ghost use Rattle.rdt_types.specs.contracts.address.Address as address;
    ghost use Rattle.change_feed.specs.contracts.change.Change as change;
    ghost use Rattle.reactive_registry.specs.Registered.{kept_code, registered_code};
    ghost use Rattle.local_world.specs.Stored.{Stored, stored_code};
    ghost use Rattle.local_world.specs.Standing.{stored, IsKept};

    ghost Value = { Stored };

    ghost coded = { stored_code commit.the_row.coded (registered_code (kept_code address.the_row.coded change.the_row.coded)) };

    ghost view = { λ w. stored w.settings w.journal.commits w.shards.items w.seens w.registry };

    ghost invariant = { λ w. IsKept w.settings w.journal w.shards.items w.seens w.registry w.holds };
}

impl World {
    /// The world in which nothing was done yet.
    pub fn new(alloc: Global, settings: &Settings) -> Result<World, AllocError>
        ensures first { IfOk result (λ world. store_of world ≡ first_store settings.now.shards settings.now.window settings.now.limit) }
        ensures sound { IfOk result (λ world. IsSound (store_of world)) }
    {
        let journal = Journal::new(alloc, settings, MemKeep, CommitList::new(alloc))?;
        let holds = HoldBook::new(alloc, 0)?;
        let shards = empty_shards(alloc, settings)?;
        let seens = nothing_seen(alloc)?;
        let registry = all_entered(alloc)?;
        Ok(World {
            alloc,
            settings: *settings,
            journal,
            holds,
            shards,
            seens,
            registry,
        })
    }

    /// A client's view, by which it makes its calls.
    pub fn view(&mut self, client: u32) -> View<'_>
        requires { client < CLIENTS }
        ensures client { result.client ≡ client }
        ensures world { result.world.now ≡ self.old }
    {
        View {
            world: self,
            client,
        }
    }

    /// How many shards hold the data.
    pub fn shards(&self) -> u8
        ensures shards { result ≡ self.now.shards }
        ensures in_range { (LEAST_SHARDS ≤ result) × (result ≤ MOST_SHARDS) }
    {
        self.settings.shards
    }

    /// How many commits a client has seen.
    pub(crate) fn seen(&self, client: u32) -> u64
        requires { client < CLIENTS }
        ensures seen { result ≡ seen_by (store_of self.now) client }
        ensures sound { IsSound (store_of self.now) }
    {
        self.seens.as_slice()[client as usize]
    }

    /// Tells a client the journal's length.
    pub(crate) fn refresh(&mut self, client: u32) -> u64
        requires { client < CLIENTS }
        ensures { GoesBy self.old client Call.refresh (Answer.number result) self.new }
    {
        let number = self.journal.length();
        self.seens.set(client as usize, number);
        number
    }

    /// Reads the value at an address, at a front of its shard that isn't below what the client has seen.
    pub(crate) fn read(&mut self, client: u32, address: &Address) -> Result<Snap, StoreError>
        requires client { client < CLIENTS }
        requires short { IsShortAddress address.now }
        ensures { GoesBy self.old client (Call.read address.now) (snap_answered result) self.new }
    {
        let seen = self.seens.as_slice()[client as usize];
        let Ok(snap) = read_in(
            &self.journal,
            &self.settings,
            &mut self.shards,
            address,
            seen,
        ) else {
            return Err(StoreError::NoMemory);
        };
        self.seens.set(client as usize, snap.base);
        Ok(snap)
    }

    /// Validates what was observed in a shard up to the shard's front.
    pub(crate) fn prepare(
        &mut self,
        client: u32,
        shard: u8,
        based: &BasedList,
    ) -> Result<Prepared, PrepareError>
        requires client { client < CLIENTS }
        requires can { CanPrepare (known_by (store_of self.old) client) shard based.now }
        ensures { GoesBy self.old client (Call.prepare shard based.now) (front_answered result) self.new }
    {
        let here = &self.shards[shard as usize];
        let front = here.front();
        let Ok(answer) = validate_in::<Brand>(Blank::new(1), here, based.as_slice()) else {
            return Err(PrepareError::NoMemory);
        };
        let seen = self.seens.as_slice()[client as usize];
        self.seens.set(client as usize, seen.max(front));
        answer
    }

    /// Validates the rest, asks the live holds, and commits.
    pub(crate) fn append(&mut self, client: u32, ready: &Ready) -> Result<u64, AppendError>
        requires client { client < CLIENTS }
        requires can { CanAppend (known_by (store_of self.old) client) ready.now }
        ensures { GoesBy self.old client (Call.append ready.now) (commit_answered result) self.new }
    {
        let Ok(answer) = decide::<Brand>(
            self.alloc,
            Blank::new(1),
            &mut self.journal,
            &mut self.holds,
            ready,
        ) else {
            return Err(AppendError::NoMemory);
        };
        self.seens.set(client as usize, self.journal.length());
        answer
    }

    /// Reads the value at an address as it was after so many commits.
    pub(crate) fn read_at(
        &mut self,
        client: u32,
        address: &Address,
        number: u64,
    ) -> Result<Value, ReadAtError>
        requires client { client < CLIENTS }
        requires short { IsShortAddress address.now }
        requires seen { number ≤ seen_by (store_of self.old) client }
        ensures { GoesBy self.old client (Call.read_at address.now number) (value_answered result) self.new }
    {
        let Ok(answer) = read_back(
            &self.journal,
            &self.settings,
            &mut self.shards,
            address,
            number,
        ) else {
            return Err(ReadAtError::NoMemory);
        };
        answer
    }

    /// Has the changes at an address told to a client from now on, and those since it took last.
    pub(crate) fn subscribe(&mut self, client: u32, address: &Address) -> Result<(), StoreError>
        requires client { client < CLIENTS }
        requires short { IsShortAddress address.now }
        ensures { GoesBy self.old client (Call.subscribe address.now) (done_answered result) self.new }
    {
        let Ok(()) = tell(&self.journal, &mut self.registry, client, address) else {
            return Err(StoreError::NoMemory);
        };
        Ok(())
    }

    /// Has the changes at an address told to a client no longer. It is never refused for want of memory.
    pub(crate) fn unsubscribe(&mut self, client: u32, address: &Address)
        requires client { client < CLIENTS }
        requires short { IsShortAddress address.now }
        ensures { GoesBy self.old client (Call.unsubscribe address.now) Answer.done self.new }
    {
        hush(&self.journal, &mut self.registry, client, address);
    }

    /// Takes what changed at a client's addresses since it took last.
    pub(crate) fn take(&mut self, client: u32) -> Result<Feed, StoreError>
        requires client { client < CLIENTS }
        ensures { GoesBy self.old client Call.take (feed_answered result) self.new }
    {
        let Ok(feed) = take_all(&self.journal, &mut self.registry, client) else {
            return Err(StoreError::NoMemory);
        };
        self.seens.set(client as usize, feed.to());
        Ok(feed)
    }

    /// Lets a shard follow to the journal's end, which the client has seen then. It answers the front. For want of
    /// memory the shard may have followed some of the way.
    pub fn follow(&mut self, client: u32, shard: u8) -> Result<u64, AllocError>
        requires client { client < CLIENTS }
        requires shard { shard < self.old.shards }
        ensures sound { IsSound (store_of self.old) }
        ensures front { IfOk result (λ front. front ≡ length self.old.journal) }
        ensures ok { IfOk result (λ front. store_of self.new ≡ followed (store_of self.old) client shard) }
        ensures err { OnErr result (HasStalled (store_of self.old) (store_of self.new)) }
    {
        let end = self.journal.length();
        follow_at(&self.journal, &self.settings, &mut self.shards, shard, end)?;
        let seen = self.seens.as_slice()[client as usize];
        self.seens.set(client as usize, seen.max(end));
        Ok(end)
    }
}
