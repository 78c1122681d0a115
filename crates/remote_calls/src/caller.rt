//! What has the requests of one client answered: a service beside it, or a link to a server.

ghost use Rattle.std.specs.Prelude.{◌≡◌, ℕ, Result};
ghost use Rattle.docc_prepare.specs.declared.backend.StoreError.{StoreError as SpecError};
ghost use Rattle.docc_prepare.specs.Calls.{Known, Call, Answer};
ghost use Rattle.remote_wire.specs.declared.request.Request.{Request as SpecRequest};
ghost use Rattle.remote_wire.specs.declared.answer.WireAnswer.{WireAnswer as SpecAnswer};
ghost use Rattle.remote_calls.specs.Calling.{CanAsk, IsReplied};

use docc_prepare::StoreError;
use remote_wire::{Request, WireAnswer};

/// What has the requests of one client answered. A request stands for each call that may be made of what the caller stands
/// for and that is spelled so, and is answered as that call is.
pub trait Caller {
    /// What it stands for.
    ghost known: { Self → Known };

    /// Where it stands: no call moves it.
    ghost home: { Self → ℕ };

    /// The relation by which calls go through it.
    ghost goes: { Self → Call → Answer → Self → Type 0 };

    /// What one request does to it, a greeting too, by what comes of that.
    ghost does: { Self → SpecRequest → Result SpecAnswer SpecError → Self → Type 0 };

    /// Has a request answered.
    fn call(&mut self, request: &Request) -> Result<WireAnswer, StoreError>
        requires { CanAsk (known self.old) request.now }
        ensures replied { IsReplied known goes self.old request.now result self.new }
        ensures asked { does self.old request.now result self.new }
        ensures home { home self.new ≡ home self.old };

    /// How many calls have failed by a fault.
    fn call_faults(&self) -> u64
        ensures { result ≡ (known self.now).faults };
}
