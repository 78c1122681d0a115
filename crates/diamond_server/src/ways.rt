//! Ways to serve the link of a new client.

ghost use Rattle.std.specs.Prelude.{◌≡◌};
ghost use Rattle.docc_prepare.specs.Readable.{IsNew};
ghost use Rattle.diamond_server.specs.Promises.{sides};
ghost use Rattle.diamond_server.specs.Ways.{Promising, StaysPromised, TellsFaults};

use crate::serving::serve_by;
use dio_core::End;
use docc_prepare::Waiter;
use std::alloc::Global;
use watch_reruns::Rerunner;

/// A way to serve the link of a new client. What is promised of the link is said by what its client knows, so that it can be told
/// of many links by what is known when all of them have ended.
pub trait Serves {
    /// What is promised of a link.
    ghost promised: { Promising };

    /// Serves a link for the backend's client, and answers a status.
    fn serve<B: Waiter, K: End>(&self, alloc: Global, backend: &mut B, link: &mut K) -> u8
        requires new { IsNew (B.known backend.old) }
        ensures promises { promised
            (B.known backend.old) (B.known backend.new) (B.known backend.new) result
            (sides K.Source K.Sink link.old) (sides K.Source K.Sink link.new) }
        ensures home { B.home backend.new ≡ B.home backend.old };

    /// The law that what is promised stays so where the client learns more.
    fn stays_promised()
        ensures { StaysPromised promised };

    /// The law that a fault of the store is told, whatever else is promised.
    fn tells_faults()
        ensures { TellsFaults promised };
}

/// Links are served as sessions of lines, all of whose reruns of watches are made by this.
#[derive(Clone, Copy)]
pub struct SessionLines<'p, P> {
    pub reruns: &'p P,
}

impl<'p, P: Rerunner> Serves for SessionLines<'p, P> {
    ghost use Rattle.diamond_server.specs.Accounts.{LinesPromised};

    ghost promised = { LinesPromised };

    fn serve<B: Waiter, K: End>(&self, alloc: Global, backend: &mut B, link: &mut K) -> u8 {
        let (_shards, _seen) = (backend.shards(), backend.seen());
        serve_by(alloc, backend, link, self.reruns)
    }

    fn stays_promised() {}

    fn tells_faults() {}
}
