//! Requests answered by calls of the backend.

ghost use Rattle.std.specs.Prelude.{◌≡◌};
ghost use Rattle.remote_wire.specs.declared.request.Request.TheVariants as ask;
ghost use Rattle.remote_service.specs.Serving.{Serves, Does, AppendsAnew};

use crate::error::ServiceError;
use crate::handing::Whose;
use crate::service::Service;
use crate::telling::{answer, done, fed, refreshed, valued};
use crate::valid::{can_prepare, is_short};
use abort_witness::BasedList;
use docc_prepare::Waiter;
use plain_data::Text;
use rdt_types::Address;
use remote_wire::{BaseList, Given, Request, WireAnswer};
use std::alloc::Global;

impl Service {
    /// Answers a greeting.
    fn greet<B: Waiter>(&mut self, backend: &mut B) -> Result<WireAnswer, ServiceError>
        requires serves { Serves self.old (B.known backend.old) }
        ensures responds { Does B.known B.goes self.old backend.old ask.Hello result self.new backend.new }
        ensures serves { Serves self.new (B.known backend.new) }
        ensures home { B.home backend.new ≡ B.home backend.old }
    {
        let given = Given::Hello(backend.client(), backend.shards());
        answer(backend.seen(), given)
    }

    /// Answers a refresh.
    fn refresh<B: Waiter>(&mut self, backend: &mut B) -> Result<WireAnswer, ServiceError>
        requires serves { Serves self.old (B.known backend.old) }
        ensures responds { Does B.known B.goes self.old backend.old ask.Refresh result self.new backend.new }
        ensures serves { Serves self.new (B.known backend.new) }
        ensures home { B.home backend.new ≡ B.home backend.old }
    {
        refreshed(backend.refresh())
    }

    /// Answers a read.
    fn read<B: Waiter>(
        &mut self,
        backend: &mut B,
        address: &Address,
    ) -> Result<WireAnswer, ServiceError>
        requires serves { Serves self.old (B.known backend.old) }
        ensures responds { Does B.known B.goes self.old backend.old (ask.Read address.now) result self.new backend.new }
        ensures serves { Serves self.new (B.known backend.new) }
        ensures home { B.home backend.new ≡ B.home backend.old }
    {
        if !is_short(address) {
            return Err(ServiceError::Malformed);
        }
        let outcome = backend.read(address);
        self.keep_snap(address, outcome, backend.seen())
    }

    /// Answers a preparing.
    fn prepare<B: Waiter>(
        &mut self,
        backend: &mut B,
        shard: u8,
        observed: &BasedList,
    ) -> Result<WireAnswer, ServiceError>
        requires serves { Serves self.old (B.known backend.old) }
        ensures responds { Does B.known B.goes self.old backend.old (ask.Prepare shard observed.now) result self.new backend.new }
        ensures serves { Serves self.new (B.known backend.new) }
        ensures home { B.home backend.new ≡ B.home backend.old }
    {
        if !can_prepare(
            self.snaps.as_slice(),
            backend.shards(),
            shard,
            observed.as_slice(),
        ) {
            return Err(ServiceError::Malformed);
        }
        let outcome = backend.prepare(shard, observed);
        self.keep_front(observed, outcome, backend.seen())
    }

    /// Answers an append of the client's next commit. Its body is run again on the values that were given, and what is handed
    /// on is made of that run alone.
    fn append<B: Waiter>(
        &mut self,
        alloc: Global,
        backend: &mut B,
        body: &Text,
        named: &BaseList,
    ) -> Result<WireAnswer, ServiceError>
        requires serves { Serves self.old (B.known backend.old) }
        ensures responds { AppendsAnew B.known B.goes self.old backend.old body.now named.now result self.new backend.new }
        ensures serves { Serves self.new (B.known backend.new) }
        ensures home { B.home backend.new ≡ B.home backend.old }
    {
        let Some(next) = self.seq.checked_add(1) else {
            return Err(ServiceError::NoMemory);
        };
        let whose = Whose {
            client: backend.client(),
            shards: backend.shards(),
        };
        let ready = self.made_anew(alloc, whose, body, named.as_slice())?;
        let outcome = backend.append(&ready);
        self.settle(next, outcome, backend.seen())
    }

    /// Answers a read at a number.
    fn read_at<B: Waiter>(
        &mut self,
        backend: &mut B,
        address: &Address,
        number: u64,
    ) -> Result<WireAnswer, ServiceError>
        requires serves { Serves self.old (B.known backend.old) }
        ensures responds { Does B.known B.goes self.old backend.old (ask.ReadAt address.now number) result self.new backend.new }
        ensures serves { Serves self.new (B.known backend.new) }
        ensures home { B.home backend.new ≡ B.home backend.old }
    {
        if !is_short(address) || number > backend.seen() {
            return Err(ServiceError::Malformed);
        }
        let outcome = backend.read_at(address, number);
        valued(backend.seen(), outcome)
    }

    /// Answers a subscription.
    fn subscribe<B: Waiter>(
        &mut self,
        backend: &mut B,
        address: &Address,
    ) -> Result<WireAnswer, ServiceError>
        requires serves { Serves self.old (B.known backend.old) }
        ensures responds { Does B.known B.goes self.old backend.old (ask.Subscribe address.now) result self.new backend.new }
        ensures serves { Serves self.new (B.known backend.new) }
        ensures home { B.home backend.new ≡ B.home backend.old }
    {
        if !is_short(address) {
            return Err(ServiceError::Malformed);
        }
        let outcome = backend.subscribe(address);
        done(backend.seen(), outcome)
    }

    /// Answers the end of a subscription.
    fn unsubscribe<B: Waiter>(
        &mut self,
        backend: &mut B,
        address: &Address,
    ) -> Result<WireAnswer, ServiceError>
        requires serves { Serves self.old (B.known backend.old) }
        ensures responds { Does B.known B.goes self.old backend.old (ask.Unsubscribe address.now) result self.new backend.new }
        ensures serves { Serves self.new (B.known backend.new) }
        ensures home { B.home backend.new ≡ B.home backend.old }
    {
        if !is_short(address) {
            return Err(ServiceError::Malformed);
        }
        let outcome = backend.unsubscribe(address);
        done(backend.seen(), outcome)
    }

    /// Answers a take.
    fn take<B: Waiter>(&mut self, backend: &mut B) -> Result<WireAnswer, ServiceError>
        requires serves { Serves self.old (B.known backend.old) }
        ensures responds { Does B.known B.goes self.old backend.old ask.Take result self.new backend.new }
        ensures serves { Serves self.new (B.known backend.new) }
        ensures home { B.home backend.new ≡ B.home backend.old }
    {
        let outcome = backend.take();
        fed(backend.seen(), outcome)
    }

    /// Answers a wait.
    fn wait<B: Waiter>(&mut self, backend: &mut B) -> Result<WireAnswer, ServiceError>
        requires serves { Serves self.old (B.known backend.old) }
        ensures responds { Does B.known B.goes self.old backend.old ask.Wait result self.new backend.new }
        ensures serves { Serves self.new (B.known backend.new) }
        ensures home { B.home backend.new ≡ B.home backend.old }
    {
        let outcome = backend.wait();
        done(backend.seen(), outcome)
    }

    /// Answers a request, by the one call that it means.
    pub(crate) fn respond<B: Waiter>(
        &mut self,
        alloc: Global,
        backend: &mut B,
        asked: &Request,
    ) -> Result<WireAnswer, ServiceError>
        requires serves { Serves self.old (B.known backend.old) }
        ensures responds { Does B.known B.goes self.old backend.old asked.now result self.new backend.new }
        ensures serves { Serves self.new (B.known backend.new) }
        ensures home { B.home backend.new ≡ B.home backend.old }
    {
        match asked {
            Request::Hello => self.greet(backend),
            Request::Refresh => self.refresh(backend),
            Request::Read(address) => self.read(backend, address),
            Request::Prepare(shard, observed) => self.prepare(backend, *shard, observed),
            Request::Append(seq, body, named) => {
                if *seq != self.seq {
                    return Err(ServiceError::Malformed);
                }
                self.append(alloc, backend, body, named)
            }
            Request::ReadAt(address, number) => self.read_at(backend, address, *number),
            Request::Subscribe(address) => self.subscribe(backend, address),
            Request::Unsubscribe(address) => self.unsubscribe(backend, address),
            Request::Take => self.take(backend),
            Request::Wait => self.wait(backend),
        }
    }
}
