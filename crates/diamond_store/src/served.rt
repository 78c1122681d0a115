//! A pass on a store, as the backend of its client.

ghost use Rattle.std.specs.Prelude.{◌≡◌};
ghost use Rattle.docc_prepare.specs.Calls.{commit_answered};
ghost use Rattle.diamond_store.specs.Decided.{append_answered};

use crate::answer::StoreAppendError;
use crate::gate::Gate;
use crate::pass::Pass;
use crate::store::Store;
use abort_witness::BasedList;
use change_feed::Feed;
use docc_prepare::{AppendError, Backend, PrepareError, ReadAtError, StoreError, Waiter};
use history_lock::Naming;
use journal_core::{Keep, Ready};
use rdt_types::{Address, Value};
use std::sync::Wait;
use txn_lang::Snap;
use version_shard::Prepared;

/// A store, a pass on it, and the runtime that its locks wait by.
#[derive(Drop)]
pub struct Served<'a, K: Keep, G: Gate + Drop, N: Naming, R: Wait> {
    pub store: &'a Store<K, G, N>,
    pub pass: Pass<K, N>,
    pub rt: &'a R,
}

/// The store's answer to an append as that of a backend, which doesn't tell of how many denials it knows.
fn plain(answer: Result<u64, StoreAppendError>) -> Result<u64, AppendError>
    ensures { commit_answered result ≡ append_answered answer }
{
    match answer {
        Ok(number) => Ok(number),
        Err(StoreAppendError::Clash(witness)) => Err(AppendError::Clash(witness)),
        Err(StoreAppendError::Held(barred)) => Err(AppendError::Held(barred)),
        Err(StoreAppendError::Full(limit)) => Err(AppendError::Full(limit)),
        Err(StoreAppendError::Disk(_, _)) => Err(AppendError::Disk),
        Err(StoreAppendError::Fault) => Err(AppendError::Fault),
        Err(StoreAppendError::NoMemory) => Err(AppendError::NoMemory),
    }
}

impl<'a, K: Keep, G: Gate + Drop, N: Naming, R: Wait> Backend for Served<'a, K, G, N, R> {
    ghost use Rattle.diamond_store.specs.Passes.{known_of};
    ghost use Rattle.diamond_store.specs.Answers.{Looks};

    ghost known = { λ s. known_of s.pass };

    ghost home = { λ _. 0 };

    ghost goes = { λ s c a t. Looks s.pass c a t.pass };

    fn client(&self) -> u32 {
        self.pass.client()
    }

    fn shards(&self) -> u8 {
        self.pass.shards()
    }

    fn seen(&self) -> u64 {
        self.pass.seen()
    }

    fn store_faults(&self) -> u64 {
        0
    }

    fn refresh(&mut self) -> Result<u64, StoreError> {
        Ok(self.store.length(&mut self.pass))
    }

    fn read(&mut self, address: &Address) -> Result<Snap, StoreError> {
        self.store.read(self.rt, &mut self.pass, address)
    }

    fn prepare(&mut self, shard: u8, based: &BasedList) -> Result<Prepared, PrepareError> {
        self.store.prepare(self.rt, &mut self.pass, shard, based)
    }

    fn append(&mut self, ready: &Ready) -> Result<u64, AppendError> {
        plain(self.store.append(self.rt, &mut self.pass, ready))
    }

    fn read_at(&mut self, address: &Address, number: u64) -> Result<Value, ReadAtError> {
        self.store.read_at(self.rt, &mut self.pass, address, number)
    }

    fn subscribe(&mut self, address: &Address) -> Result<(), StoreError> {
        self.store.subscribe(&mut self.pass, address)
    }

    fn unsubscribe(&mut self, address: &Address) -> Result<(), StoreError> {
        self.store.unsubscribe(&mut self.pass, address);
        Ok(())
    }

    fn take(&mut self) -> Result<Feed, StoreError> {
        self.store.take(self.rt, &mut self.pass)
    }
}

impl<'a, K: Keep, G: Gate + Drop, N: Naming, R: Wait> Waiter for Served<'a, K, G, N, R> {
    fn wait(&mut self) -> Result<(), StoreError> {
        self.store.wait(self.rt, &mut self.pass)
    }
}
