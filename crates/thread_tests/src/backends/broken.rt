//! A store whose calls fail from one on, by a fault of the store, as no store here does by itself.

ghost use Rattle.std.specs.Prelude.{◌≡◌, true, false};
ghost use Rattle.docc_prepare.specs.Calls.{Call, Answer};
ghost use Rattle.docc_prepare.specs.Backends.{IsAnswered};
ghost use Rattle.diamond_store.specs.Passes.{known_of};
ghost use Rattle.session_core.specs.declared.session.Session.{Session};
ghost use Rattle.session_core.specs.Holding.{Follows};
ghost use Rattle.thread_tests.specs.Faults.{failing};

use abort_witness::BasedList;
use change_feed::Feed;
use diamond_store::{Open, Served};
use dio_core::Count;
use docc_prepare::{AppendError, Backend, PrepareError, ReadAtError, StoreError};
use history_lock::Naming;
use journal_core::{MemKeep, Ready};
use rdt_types::{Address, Value};
use std::sync::Wait;
use txn_lang::Snap;
use version_shard::Prepared;

/// A client's backend that answers so many calls, and then no more.
#[derive(Drop)]
pub(crate) struct Broken<'a, N: Naming, R: Wait> {
    pub(crate) served: Served<'a, MemKeep, Open, N, R>,
    /// How many calls are still answered.
    pub(crate) left: u64,
    /// How many calls have failed.
    pub(crate) faults: Count,
}

impl<'a, N: Naming, R: Wait> Broken<'a, N, R> {
    /// A backend that hands so many calls on. None has failed, so what may follow on the pass may follow on it.
    pub(crate) fn new(served: Served<'a, MemKeep, Open, N, R>, left: u64) -> Broken<'a, N, R>
        ensures { (s : Session) → Follows (known_of served.entry.pass) s → Follows (failing result.served.pass result.faults) s }
    {
        let faults = Count::new();
        Broken {
            served,
            left,
            faults,
        }
    }

    /// Whether a call fails. Where it does, the store has looked at the journal's length, and that is all.
    fn fails(&mut self) -> bool
        ensures same { result ≡ false → self.new.served.pass ≡ self.old.served.pass }
        ensures whole { result ≡ false → (self.old.faults ≡ 0) × (self.new.faults ≡ 0) }
        ensures failed { result ≡ true → (c : Call) →
            IsAnswered (failing self.old.served.pass self.old.faults) c (Answer.failed true)
            (failing self.new.served.pass self.new.faults) }
    {
        if self.faults.get() == 0 && self.left > 0 {
            self.left -= 1;
            return false;
        }
        let _ = self.served.refresh();
        self.faults.add_one();
        true
    }
}

impl<'a, N: Naming, R: Wait> Backend for Broken<'a, N, R> {
    ghost use Rattle.thread_tests.specs.Faults.{failing};

    ghost known = { λ b. failing b.served.pass b.faults };

    ghost home = { λ _. 0 };

    ghost goes = { λ b c a d. Unit {0} };

    fn client(&self) -> u32 {
        self.served.client()
    }

    fn shards(&self) -> u8 {
        self.served.shards()
    }

    fn seen(&self) -> u64 {
        self.served.seen()
    }

    fn store_faults(&self) -> u64 {
        self.faults.get()
    }

    fn refresh(&mut self) -> Result<u64, StoreError> {
        if self.fails() {
            return Err(StoreError::Fault);
        }
        self.served.refresh()
    }

    fn read(&mut self, address: &Address) -> Result<Snap, StoreError> {
        if self.fails() {
            return Err(StoreError::Fault);
        }
        self.served.read(address)
    }

    fn prepare(&mut self, shard: u8, based: &BasedList) -> Result<Prepared, PrepareError> {
        if self.fails() {
            return Err(PrepareError::Fault);
        }
        self.served.prepare(shard, based)
    }

    fn append(&mut self, ready: &Ready) -> Result<u64, AppendError> {
        if self.fails() {
            return Err(AppendError::Fault);
        }
        self.served.append(ready)
    }

    fn read_at(&mut self, address: &Address, number: u64) -> Result<Value, ReadAtError> {
        if self.fails() {
            return Err(ReadAtError::Fault);
        }
        self.served.read_at(address, number)
    }

    fn subscribe(&mut self, address: &Address) -> Result<(), StoreError> {
        if self.fails() {
            return Err(StoreError::Fault);
        }
        self.served.subscribe(address)
    }

    fn unsubscribe(&mut self, address: &Address) -> Result<(), StoreError> {
        if self.fails() {
            return Err(StoreError::Fault);
        }
        self.served.unsubscribe(address)
    }

    fn take(&mut self) -> Result<Feed, StoreError> {
        if self.fails() {
            return Err(StoreError::Fault);
        }
        self.served.take()
    }
}
