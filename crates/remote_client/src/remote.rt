//! A client far from its store, as a backend.

ghost use Rattle.std.specs.Prelude.{◌≡◌, IfOk};
ghost use Rattle.remote_client.specs.Standing.{stood_for};
ghost use Rattle.remote_calls.specs.Calling.{Spells};
ghost use Rattle.remote_client.specs.Asking.{Asks};
ghost use Rattle.remote_client.specs.Opening.{IsOpened};

use crate::asked::{
    append_request, prepare_request, read_at_request, read_request, seen_behind, subscribe_request,
    unsubscribe_request,
};
use crate::given::{commit_of, done_of, feed_of, front_of, number_of, snap_of, value_of};
use crate::greeting::greeting_of;
use abort_witness::BasedList;
use change_feed::Feed;
use docc_prepare::{AppendError, Backend, PrepareError, ReadAtError, StoreError, Waiter};
use journal_core::Ready;
use rdt_types::{Address, Value};
use remote_calls::Caller;
use remote_wire::{Request, WireAnswer};
use std::alloc::{AllocError, Global};
use std::marker::Model;
use std::snapshot::Snapshot;
use txn_lang::Snap;
use version_shard::Prepared;

/// A client over what has its requests answered. Once a call has failed, it stands for what it stood for before that call,
/// though the store's side may have taken the step; and every later call wants memory, and asks nothing.
#[derive(Drop)]
pub struct Remote<C: Caller> {
    alloc: Global,
    caller: C,
    stood: Snapshot<C>,
    client: u32,
    shards: u8,
    seen: u64,
    lost: bool,
}

impl<C: Caller> Model for Remote<C> {
    ghost use Rattle.std.specs.Coded.{codes};
    ghost use Rattle.remote_client.specs.Standing.{Standing, IsStanding};

    ghost Value = { Standing C };

    ghost coded = { Prim.hlevel codes };

    ghost view = { λ r. record { caller = r.caller; stood = r.stood.value; lost = r.lost } };

    ghost invariant = { λ r. IsStanding C.known C.home
        (record { caller = r.caller; stood = r.stood.value; lost = r.lost }) r.client r.shards r.seen };
}

impl<C: Caller> Remote<C> {
    /// Greets, and then stands for what the caller does. After an error the caller is given back.
    pub fn open(alloc: Global, mut caller: C) -> Result<Remote<C>, (C, StoreError)>
        ensures { IsOpened C.known C.home C.does caller result }
    {
        match caller.call(&Request::Hello) {
            Ok(answer) => {
                let greeting = greeting_of(answer);
                let stood = Snapshot::of(&caller);
                Ok(Remote {
                    alloc,
                    caller,
                    stood,
                    client: greeting.client,
                    shards: greeting.shards,
                    seen: greeting.seen,
                    lost: false,
                })
            }
            Err(e) => Err((caller, e)),
        }
    }

    /// The caller.
    pub fn close(self) -> C
        ensures { result ≡ self.caller }
    {
        let Remote { caller, .. } = self;
        caller
    }

    /// Has a request answered, if there was memory for it and no call has failed yet.
    fn ask(&mut self, request: Result<Request, AllocError>) -> Result<WireAnswer, StoreError>
        requires { IfOk request (Spells (stood_for C.known self.old)) }
        ensures goes { Asks C.known C.goes C.does self.old request result self.new }
        ensures home { C.home self.new.caller ≡ C.home self.old.caller }
    {
        let Ok(request) = request else {
            self.lost = true;
            return Err(StoreError::NoMemory);
        };
        if self.lost {
            return Err(StoreError::NoMemory);
        }
        match self.caller.call(&request) {
            Ok(answer) => {
                self.stood = Snapshot::of(&self.caller);
                self.seen = seen_behind(&request, self.seen, answer.seen);
                Ok(answer)
            }
            Err(e) => {
                self.lost = true;
                Err(e)
            }
        }
    }
}

impl<C: Caller> Backend for Remote<C> {
    ghost use Rattle.remote_client.specs.Standing.{stood_for, Steps};

    ghost known = { λ r. stood_for C.known r };

    ghost home = { λ r. C.home r.caller };

    ghost goes = { λ r c a s. Steps C.goes C.does r c a s };

    fn client(&self) -> u32 {
        self.client
    }

    fn shards(&self) -> u8 {
        self.shards
    }

    fn seen(&self) -> u64 {
        self.seen
    }

    fn store_faults(&self) -> u64 {
        self.caller.call_faults()
    }

    fn refresh(&mut self) -> Result<u64, StoreError> {
        number_of(self.ask(Ok(Request::Refresh)))
    }

    fn read(&mut self, address: &Address) -> Result<Snap, StoreError> {
        snap_of(self.ask(read_request(address)))
    }

    fn prepare(&mut self, shard: u8, based: &BasedList) -> Result<Prepared, PrepareError> {
        front_of(shard, self.ask(prepare_request(shard, based)))
    }

    fn append(&mut self, ready: &Ready) -> Result<u64, AppendError> {
        commit_of(self.ask(append_request(self.alloc, ready)))
    }

    fn read_at(&mut self, address: &Address, number: u64) -> Result<Value, ReadAtError> {
        value_of(self.ask(read_at_request(address, number)))
    }

    fn subscribe(&mut self, address: &Address) -> Result<(), StoreError> {
        done_of(self.ask(subscribe_request(address)))
    }

    fn unsubscribe(&mut self, address: &Address) -> Result<(), StoreError> {
        done_of(self.ask(unsubscribe_request(address)))
    }

    fn take(&mut self) -> Result<Feed, StoreError> {
        feed_of(self.ask(Ok(Request::Take)))
    }
}

impl<C: Caller> Waiter for Remote<C> {
    fn wait(&mut self) -> Result<(), StoreError> {
        done_of(self.ask(Ok(Request::Wait)))
    }
}
