//! What wakes those who wait for a commit. Its types say in which order its lock is taken, the journal looked at, and slept.

ghost use Rattle.std.specs.Prelude.{◌≡◌, ◌<◌, MatchOption};
ghost use Rattle.diamond_store.specs.Answers.{Learns};

use crate::gate::Gate;
use crate::pass::Pass;
use crate::store::Store;
use history_lock::{Naming, acquire};
use journal_core::Keep;
use std::sync::{Condvar, Mutex, MutexGuard, Wait};

/// A bell with a lock of its own. No other lock is held with it.
#[derive(Drop)]
pub(crate) struct Bell {
    lock: Mutex<()>,
    rung: Condvar,
}

/// The bell while its lock is held. It can't be dropped: who holds it rings, or looks.
pub(crate) struct HeldBell<'b> {
    rung: &'b Condvar,
    guard: MutexGuard<'b, ()>,
}

/// The bell behind a look that found nothing, while its lock is held still. It can't be dropped: who has it sleeps.
pub(crate) struct Quiet<'b> {
    rung: &'b Condvar,
    guard: MutexGuard<'b, ()>,
}

impl Bell {
    pub(crate) fn new() -> Bell {
        Bell {
            lock: Mutex::new(()),
            rung: Condvar::new(),
        }
    }

    /// Takes the bell's lock.
    pub(crate) fn hold<R: Wait>(&self, rt: &R) -> HeldBell<'_> {
        HeldBell {
            rung: &self.rung,
            guard: acquire(rt, &self.lock),
        }
    }
}

impl<'b> HeldBell<'b> {
    /// Wakes all who sleep.
    pub(crate) fn ring(self) {
        let HeldBell {
            rung,
            guard: _guard,
        } = self;
        rung.notify_all();
    }

    /// Looks whether the journal is longer than what a client had seen. If not, the lock is held still, so that no commit
    /// comes unheard before the client sleeps.
    pub(crate) fn look<K: Keep, G: Gate + Drop, N: Naming>(
        self,
        store: &Store<K, G, N>,
        pass: &mut Pass<K, N>,
    ) -> Option<Quiet<'b>>
        ensures learns { Learns pass.old pass.new }
        ensures seen { MatchOption result (pass.old.seen < pass.new.seen) (λ quiet. pass.new.seen ≡ pass.old.seen) }
    {
        let seen = pass.seen();
        let HeldBell { rung, guard } = self;
        if store.length(pass) > seen {
            return None;
        }
        Some(Quiet { rung, guard })
    }
}

impl Quiet<'_> {
    /// Sleeps until the bell rings, which it may do for no reason.
    pub(crate) fn sleep<R: Wait>(self, rt: &R) {
        let Quiet { rung, guard } = self;
        let _guard = rung.wait(rt, guard);
    }
}
