//! A service beside its backend, as a caller.

ghost use Rattle.std.specs.Prelude.{◌≡◌};
ghost use Rattle.remote_calls.specs.Calling.{CanAsk, IsReplied};
ghost use Rattle.remote_service.specs.Serving.{Serves};
ghost use Rattle.remote_direct.specs.Directing.{Tells, known_beside, goes_beside, does_beside};

use crate::telling::{error_of, read_back};
use docc_prepare::{StoreError, Waiter};
use remote_calls::Caller;
use remote_service::Service;
use remote_wire::{Request, WireAnswer, encode_request};
use std::alloc::Global;
use std::marker::Model;

/// A service, and the backend that all of its calls go to. Each request goes to it as bytes, and its answer comes back so.
#[derive(Drop)]
pub struct Direct<B: Waiter> {
    alloc: Global,
    service: Service,
    backend: B,
}

impl<B: Waiter> Model for Direct<B> {
    ghost use Rattle.std.specs.Coded.{codes};
    ghost use Rattle.remote_service.specs.contracts.service.Service as desk;
    ghost use Rattle.remote_direct.specs.Directing.{Beside, IsBeside};

    ghost Value = { Beside B };

    ghost coded = { Prim.hlevel (codes, desk.the_row.coded, B.code) };

    ghost view = { λ d. record { backend = d.backend; service = d.service } };

    ghost invariant = { λ d. IsBeside d.service (B.known d.backend) };
}

impl<B: Waiter> Direct<B> {
    /// A service beside a backend that tells its journal.
    pub fn new(alloc: Global, service: Service, backend: B) -> Direct<B>
        requires serves { Serves service (B.known backend) }
        requires tells { Tells (B.known backend) }
        ensures { result ≡ record { backend = backend; service = service } }
    {
        Direct {
            alloc,
            service,
            backend,
        }
    }

    /// The service and the backend.
    pub fn close(self) -> (Service, B)
        ensures service { result.0 ≡ self.service }
        ensures backend { result.1 ≡ self.backend }
    {
        let Direct {
            service,
            backend,
            ..
        } = self;
        (service, backend)
    }
}

impl<B: Waiter> Caller for Direct<B> {
    ghost known = { λ d. known_beside B.known d };

    ghost home = { λ d. B.home d.backend };

    ghost goes = { λ d c a e. goes_beside B.known B.goes d c a e };

    ghost does = { λ d asked result e. does_beside B.known B.goes d asked result e };

    fn call(&mut self, request: &Request) -> Result<WireAnswer, StoreError>
        requires { CanAsk (known_beside B.known self.old) request.now }
        ensures replied { IsReplied (known_beside B.known) (goes_beside B.known B.goes) self.old request.now result self.new }
        ensures home { B.home self.new.backend ≡ B.home self.old.backend }

        // What was done at the backend, and by which call.
        ensures asked { does_beside B.known B.goes self.old request.now result self.new }
    {
        let Ok(spelled) = encode_request(self.alloc, request) else {
            return Err(StoreError::NoMemory);
        };
        let bytes = spelled.as_slice();
        match self.service.answer(self.alloc, &mut self.backend, bytes) {
            Ok(told) => read_back(self.alloc, request, told.as_slice()),
            Err(error) => Err(error_of(error)),
        }
    }

    fn call_faults(&self) -> u64 {
        self.backend.store_faults()
    }
}
