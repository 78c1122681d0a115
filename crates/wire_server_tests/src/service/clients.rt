//! Clients far from a store, each with the service that answers it, whose next request may always come.

ghost use Rattle.std.specs.Prelude.{◌≡◌, []};
ghost use Rattle.txn_lang.specs.Journals.{own};

use diamond_store::{Open, Pass, Served, Store};
use history_lock::Naming;
use journal_core::MemKeep;
use plain_data::Text;
use remote_service::{Service, ServiceError};
use std::alloc::Global;
use std::marker::Model;
use std::sync::Wait;

/// The store of a test: it keeps nothing, and holds nobody up.
pub(crate) type TestStore<N> = Store<MemKeep, Open, N>;

/// A client's pass on it.
pub(crate) type TestPass<N> = Pass<MemKeep, N>;

/// A client's backend, and the service that answers it. Contracts see the client's number.
#[derive(Drop)]
pub(crate) struct Client<'a, N: Naming, R: Wait> {
    served: Served<'a, MemKeep, Open, N, R>,
    service: Service,
}

impl<'a, N: Naming, R: Wait> Model for Client<'a, N, R> {
    ghost use Rattle.std.specs.Prelude.{ℕ};
    ghost use Rattle.std.specs.Coded.{coded_ℕ};
    ghost use Rattle.diamond_store.specs.Passes.{known_of};
    ghost use Rattle.remote_service.specs.Serving.{Serves};

    ghost Value = { ℕ };

    ghost coded = { coded_ℕ };

    ghost view = { λ c. c.served.pass.client };

    ghost invariant = { λ c. Serves c.service (known_of c.served.pass) };
}

impl<'a, N: Naming, R: Wait> Client<'a, N, R> {
    /// A client that has no commit yet.
    pub(crate) fn new(
        rt: &'a R,
        alloc: Global,
        store: &'a TestStore<N>,
        pass: TestPass<N>,
    ) -> Client<'a, N, R>
        requires { own pass.client pass.journal ≡ [] }
    {
        let service = Service::new(alloc);
        let served = Served { store, pass, rt };
        Client { served, service }
    }

    /// Asks its service.
    pub(crate) fn ask(&mut self, alloc: Global, request: &[u8]) -> Result<Text, ServiceError> {
        self.service.answer(alloc, &mut self.served, request)
    }
}
