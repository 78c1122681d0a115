//! A listener whose links are counted.

ghost use Rattle.std.specs.Prelude.{◌≡◌};

use crate::counts::Counts;
use crate::link::CountedLink;
use dio_core::{Accepted, Listener};
use std::alloc::{AllocError, Global};
use std::sync::Arc;

/// A listener over another one, whose links count. It tells what the listener below tells.
#[derive(Drop)]
pub struct CountedListening<N: Listener> {
    /// The listener below.
    pub below: N,
    counts: Arc<Counts, Global>,
}

impl<N: Listener> CountedListening<N> {
    /// A listener over this one.
    pub fn new(below: N, counts: Arc<Counts, Global>) -> CountedListening<N>
        ensures { result.below ≡ below }
    {
        CountedListening { below, counts }
    }
}

impl<N: Listener> Listener for CountedListening<N> {
    type Link = CountedLink<N::Link>;

    ghost links = { λ l. N.links l.below };

    ghost given_back = { λ l. N.given_back l.below };

    ghost accept_faults = { λ l. N.accept_faults l.below };

    fn accept(&mut self) -> Accepted<CountedLink<N::Link>> {
        self.counts.begin();
        match self.below.accept() {
            Accepted::Link(link) => {
                let counts = Arc::try_clone(&self.counts).ok();
                Accepted::Link(CountedLink::new(link, counts))
            },
            Accepted::NoMore => Accepted::NoMore,
            Accepted::Failed => Accepted::Failed,
        }
    }

    /// Gives the link below back.
    fn give_back(&mut self, link: CountedLink<N::Link>, status: u8) -> Result<(), AllocError> {
        self.below.give_back(link.into_inner(), status)
    }

    fn accept_faults(&self) -> u64 {
        self.below.accept_faults()
    }

    fn close(&mut self) {
        self.below.close();
    }
}
