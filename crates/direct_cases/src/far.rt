//! A client far from its store, with nothing between.

ghost use Rattle.docc_prepare.specs.Readable.{IsNew};
ghost use Rattle.remote_direct.specs.Directing.{Tells};

use docc_prepare::Waiter;
use plain_data::Text;
use remote_client::Remote;
use remote_direct::Direct;
use remote_service::Service;
use session_core::Session;
use std::alloc::{AllocError, Global};
use std::marker::Model;
use store_talkers::{first_session, say, turn_text};

/// A client whose requests go as bytes to a service beside its backend, and its session, whose next line may always follow.
#[derive(Drop)]
pub(crate) struct Far<B: Waiter + Drop> {
    remote: Remote<Direct<B>>,
    session: Session,
}

impl<B: Waiter + Drop> Model for Far<B> {
    ghost use Rattle.std.specs.Prelude.{ℕ};
    ghost use Rattle.std.specs.Coded.{coded_ℕ};
    ghost use Rattle.session_core.specs.Holding.{Follows};
    ghost use Rattle.remote_client.specs.Standing.{stood_for};
    ghost use Rattle.remote_direct.specs.Directing.{known_beside};

    ghost Value = { ℕ };

    ghost coded = { coded_ℕ };

    ghost view = { λ f. f.session.client };

    ghost invariant = { λ f. Follows (stood_for (known_beside B.known) f.remote) f.session };
}

impl<B: Waiter + Drop> Far<B> {
    /// A client that has no commit yet, unless its greeting failed.
    pub(crate) fn new(alloc: Global, backend: B) -> Option<Far<B>>
        requires new { IsNew (B.known backend) }
        requires tells { Tells (B.known backend) }
    {
        let service = Service::new(alloc);
        let direct = Direct::new(alloc, service, backend);
        match Remote::open(alloc, direct) {
            Ok(remote) => {
                let session = first_session(alloc, &remote);
                Some(Far { remote, session })
            }
            Err(_) => None,
        }
    }

    /// Says a line. Its replies, a line each.
    pub(crate) fn say(&mut self, alloc: Global, line: &[u8]) -> Result<Text, AllocError> {
        let turn = say(alloc, &mut self.session, &mut self.remote, line);
        turn_text(alloc, &turn)
    }
}
