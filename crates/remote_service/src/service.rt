//! The store's side of a remote client.

ghost use Rattle.std.specs.Prelude.{◌≡◌, []};
ghost use Rattle.docc_prepare.specs.Calls.{Known};
ghost use Rattle.docc_prepare.specs.Readable.{IsNew};
ghost use Rattle.remote_service.specs.Serving.{Serves};

use crate::kept::{KeptFront, KeptSnap};
use plain_data::Sequence;
use std::alloc::Global;

/// What answers the requests of one client: what it keeps of what the backend gave since the last append, and the place of the
/// client's next commit. All its calls go to one backend, on which nobody else appends for this client.
#[derive(Drop)]
pub struct Service {
    /// The values that were given, with their bases, in the order of the reads.
    pub snaps: Sequence<KeptSnap>,
    /// The fronts that were given, in the order of the preparings.
    pub fronts: Sequence<KeptFront>,
    /// The place of the client's next commit among its own, from 1.
    pub seq: u64,
}

impl Service {
    /// The service of a client that has no commit yet.
    pub fn new(alloc: Global) -> Service
        ensures snaps { result.snaps ≡ [] }
        ensures fronts { result.fronts ≡ [] }
        ensures seq { result.seq ≡ 1 }

        // It may serve on any backend whose client has no commit.
        ensures serves { (k : Known) → IsNew k → Serves result k }
    {
        Service {
            snaps: Sequence::new(alloc),
            fronts: Sequence::new(alloc),
            seq: 1,
        }
    }
}
