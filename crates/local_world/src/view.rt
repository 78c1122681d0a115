//! One client's view of a world: a backend whose calls go by the step of the store.

ghost use Rattle.std.specs.Prelude.{◌<◌};
ghost use Rattle.docc_prepare.specs.declared.limits.TheConstants.{CLIENTS};

use crate::world::World;
use abort_witness::BasedList;
use change_feed::Feed;
use docc_prepare::{AppendError, Backend, PrepareError, ReadAtError, StoreError};
use journal_core::Ready;
use rdt_types::{Address, Value};
use txn_lang::Snap;
use version_shard::Prepared;

/// A world, as one client calls it.
#[derive(Drop)]
pub struct View<'a> {
    pub world: &'a mut World,
    pub client: u32,
    pub ghost some: { client < CLIENTS },
}

impl Backend for View<'_> {
    ghost use Rattle.std.specs.Prelude.{◌≡◌};
    ghost use Rattle.docc_prepare.specs.Stores.{known_by, Does, IsSound};
    ghost use Rattle.local_world.specs.Stored.{store_of};

    ghost known = { λ v. known_by (store_of v.world.now) v.client };

    ghost home = { λ v. v.world.ghost_name };

    ghost goes = { λ v c a w. (w.client ≡ v.client) × Does (store_of v.world.now) v.client c a (store_of w.world.now) × IsSound (store_of v.world.now) };

    fn client(&self) -> u32 {
        self.client
    }

    fn shards(&self) -> u8 {
        self.world.shards()
    }

    fn seen(&self) -> u64 {
        self.world.seen(self.client)
    }

    fn store_faults(&self) -> u64 {
        0
    }

    fn refresh(&mut self) -> Result<u64, StoreError> {
        Ok(self.world.refresh(self.client))
    }

    fn read(&mut self, address: &Address) -> Result<Snap, StoreError> {
        self.world.read(self.client, address)
    }

    fn prepare(&mut self, shard: u8, based: &BasedList) -> Result<Prepared, PrepareError> {
        self.world.prepare(self.client, shard, based)
    }

    fn append(&mut self, ready: &Ready) -> Result<u64, AppendError> {
        self.world.append(self.client, ready)
    }

    fn read_at(&mut self, address: &Address, number: u64) -> Result<Value, ReadAtError> {
        self.world.read_at(self.client, address, number)
    }

    fn subscribe(&mut self, address: &Address) -> Result<(), StoreError> {
        self.world.subscribe(self.client, address)
    }

    fn unsubscribe(&mut self, address: &Address) -> Result<(), StoreError> {
        self.world.unsubscribe(self.client, address);
        Ok(())
    }

    fn take(&mut self) -> Result<Feed, StoreError> {
        self.world.take(self.client)
    }
}
