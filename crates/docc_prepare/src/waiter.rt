//! A backend on which a client can wait for others' commits.

ghost use Rattle.std.specs.Prelude.{◌≡◌};
ghost use Rattle.docc_prepare.specs.Calls.{Call, done_answered};
ghost use Rattle.docc_prepare.specs.Backends.{Goes};

use crate::backend::{Backend, StoreError};

/// A backend whose client can wait. A wait that never returns keeps its promise; its one clause is that of every call.
pub trait Waiter: Backend {
    /// Returns once the journal is longer than what the client has seen, and has then seen that.
    fn wait(&mut self) -> Result<(), StoreError>
        ensures goes { Goes Self.known Self.goes self.old Call.wait (done_answered result) self.new }
        ensures home { Self.home self.new ≡ Self.home self.old };
}
