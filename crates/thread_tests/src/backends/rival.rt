//! A store over which another client is always faster.

ghost use Rattle.std.specs.Prelude.{◌≡◌};

use abort_witness::BasedList;
use change_feed::Feed;
use diamond_store::{Open, Served};
use docc_prepare::{AppendError, Backend, PrepareError, ReadAtError, StoreError};
use history_lock::Naming;
use journal_core::{MemKeep, Ready};
use rdt_types::{Address, Value};
use std::alloc::Global;
use std::sync::Wait;
use store_talkers::Talker;
use txn_lang::Snap;
use version_shard::Prepared;

/// Before which of the client's calls the rival says its lines.
#[derive(Clone, Copy, PartialEq, Eq)]
pub(crate) enum Moment {
    Prepare,
    Append,
}

/// What the rival does: at which moment, which lines, and how often it is still to do so.
#[derive(Clone, Copy)]
pub(crate) struct Plan {
    pub(crate) moment: Moment,
    pub(crate) lines: &'static [&'static [u8]],
    pub(crate) times: u32,
}

/// A client's backend, and a rival on the same store, in one thread.
#[derive(Drop)]
pub(crate) struct Rival<'a, N: Naming, R: Wait> {
    pub(crate) alloc: Global,
    pub(crate) served: Served<'a, MemKeep, Open, N, R>,
    pub(crate) other: Talker<'a, N, R>,
    pub(crate) plan: Plan,
}

impl<'a, N: Naming, R: Wait> Rival<'a, N, R> {
    /// The rival says its lines, if it is its moment.
    fn act(&mut self, moment: Moment)
        ensures { self.new.served ≡ self.old.served }
    {
        if self.plan.moment != moment || self.plan.times == 0 {
            return;
        }
        self.plan.times -= 1;
        self.other.say_all(self.alloc, self.plan.lines);
    }
}

impl<'a, N: Naming, R: Wait> Backend for Rival<'a, N, R> {
    ghost use Rattle.diamond_store.specs.Passes.{known_of};
    ghost use Rattle.diamond_store.specs.Answers.{Looks};

    ghost known = { λ r. known_of r.served.pass };

    ghost home = { λ _. 0 };

    ghost goes = { λ r c a s. Looks r.served.pass c a s.served.pass };

    fn client(&self) -> u32 {
        self.served.client()
    }

    fn shards(&self) -> u8 {
        self.served.shards()
    }

    fn seen(&self) -> u64 {
        self.served.seen()
    }

    fn store_faults(&self) -> u64 {
        self.served.store_faults()
    }

    fn refresh(&mut self) -> Result<u64, StoreError> {
        self.served.refresh()
    }

    fn read(&mut self, address: &Address) -> Result<Snap, StoreError> {
        self.served.read(address)
    }

    fn prepare(&mut self, shard: u8, based: &BasedList) -> Result<Prepared, PrepareError> {
        self.act(Moment::Prepare);
        self.served.prepare(shard, based)
    }

    fn append(&mut self, ready: &Ready) -> Result<u64, AppendError> {
        self.act(Moment::Append);
        self.served.append(ready)
    }

    fn read_at(&mut self, address: &Address, number: u64) -> Result<Value, ReadAtError> {
        self.served.read_at(address, number)
    }

    fn subscribe(&mut self, address: &Address) -> Result<(), StoreError> {
        self.served.subscribe(address)
    }

    fn unsubscribe(&mut self, address: &Address) -> Result<(), StoreError> {
        self.served.unsubscribe(address)
    }

    fn take(&mut self) -> Result<Feed, StoreError> {
        self.served.take()
    }
}
