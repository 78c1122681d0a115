//! A listener whose links read ahead.

ghost use Rattle.std.specs.Prelude.{◌≡◌, None, OnOk, OnErr};
ghost use Rattle.dio_core.specs.Counts.{IsCountedBy};
ghost use Rattle.dio_core.specs.Listeners.{GivesBack, accept_failed};
ghost use Rattle.link_buffer.specs.Ahead.{AcceptsAhead};

use crate::link::BufferedLink;
use dio_core::{Accepted, Listener};
use std::alloc::AllocError;

/// A listener over another one, whose links read ahead. It tells no links itself, since a link that is given back may hold
/// bytes of the link below; what the listener below tells is told by the clauses of its calls.
#[derive(Drop)]
pub struct BufferedListening<N: Listener> {
    /// The listener below.
    pub below: N,
}

impl<N: Listener> BufferedListening<N> {
    /// A listener over this one.
    pub fn new(below: N) -> BufferedListening<N>
        ensures { result.below ≡ below }
    {
        BufferedListening { below }
    }
}

impl<N: Listener> Listener for BufferedListening<N> {
    type Link = BufferedLink<N::Link>;

    ghost links = { λ _. None };

    ghost given_back = { λ _. None };

    ghost accept_faults = { λ l. N.accept_faults l.below };

    fn accept(&mut self) -> Accepted<BufferedLink<N::Link>>
        ensures accepts { AcceptsAhead result (N.links self.old.below) (N.links self.new.below) }
        ensures same { N.given_back self.new.below ≡ N.given_back self.old.below }
        ensures counted { IsCountedBy N.accept_faults (accept_failed result) self.old.below self.new.below }
    {
        match self.below.accept() {
            Accepted::Link(link) => Accepted::Link(BufferedLink::new(link)),
            Accepted::NoMore => Accepted::NoMore,
            Accepted::Failed => Accepted::Failed,
        }
    }

    /// Gives the link below back. What was read ahead of it and not given is gone.
    fn give_back(&mut self, link: BufferedLink<N::Link>, status: u8) -> Result<(), AllocError>
        ensures ok { OnOk result (GivesBack N.given_back link.link status self.old.below self.new.below) }
        ensures err { OnErr result (N.given_back self.new.below ≡ N.given_back self.old.below) }
        ensures same { N.links self.new.below ≡ N.links self.old.below }
        ensures count { N.accept_faults self.new.below ≡ N.accept_faults self.old.below }
    {
        self.below.give_back(link.into_inner(), status)
    }

    fn accept_faults(&self) -> u64 {
        self.below.accept_faults()
    }

    fn close(&mut self)
        ensures links { N.links self.new.below ≡ N.links self.old.below }
        ensures given { N.given_back self.new.below ≡ N.given_back self.old.below }
        ensures count { N.accept_faults self.new.below ≡ N.accept_faults self.old.below }
    {
        self.below.close();
    }
}
