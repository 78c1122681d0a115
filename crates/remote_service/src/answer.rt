//! Requests and answers as bytes.

ghost use Rattle.std.specs.Prelude.{◌≡◌, IfOk, Err};
ghost use Rattle.remote_service.specs.declared.error.ServiceError.TheVariants as spec_error;
ghost use Rattle.remote_service.specs.code.Told.{Spells};
ghost use Rattle.remote_service.specs.Malformed.{IsMalformed};
ghost use Rattle.remote_service.specs.Serving.{Serves, Answered, IsRefused, OnlyRefuses, HasFailed, HasStalled, LacksOnlyAsked};

use crate::error::ServiceError;
use crate::refusing::of_wire;
use crate::service::Service;
use docc_prepare::Waiter;
use plain_data::Text;
use remote_wire::{WireAnswer, decode_request, encode_answer};
use std::alloc::{AllocError, Global};

/// The bytes of an answer, or why there is none.
fn spelled(alloc: Global, outcome: Result<WireAnswer, ServiceError>) -> Result<Text, ServiceError>
    ensures { Spells outcome result }
{
    match outcome {
        Ok(answer) => match encode_answer(alloc, &answer) {
            Ok(bytes) => Ok(bytes),
            Err(AllocError) => Err(ServiceError::NoMemory),
        },
        Err(e) => Err(e),
    }
}

impl Service {
    /// Answers the bytes of a request by those of its answer. A request is answered by one call of the backend, a greeting by
    /// none. All calls of a service go to one backend, on which nobody else appends for this client.
    pub fn answer<B: Waiter>(
        &mut self,
        alloc: Global,
        backend: &mut B,
        request: &[u8],
    ) -> Result<Text, ServiceError>
        requires serves { Serves self.old (B.known backend.old) }

        // What the bytes ask was answered, by the call that they mean, and so it is told.
        ensures answered { IfOk result (Answered B.known B.goes self.old backend.old request.now self.new backend.new) }

        // They are refused exactly where they are malformed, want of memory aside, and then nothing was done.
        ensures refused { result ≡ Err spec_error.Malformed → IsRefused B.known self.old backend.old request.now self.new backend.new }
        ensures refuses { IsMalformed self.old (B.known backend.old) request.now → OnlyRefuses result }

        // The store failed in that call, and counted it.
        ensures failed { result ≡ Err spec_error.StoreFault → HasFailed B.known B.goes self.old backend.old request.now backend.new }

        // For want of memory that call was made or not.
        ensures stalled { result ≡ Err spec_error.NoMemory → HasStalled B.known B.goes self.old backend.old request.now self.new backend.new }

        // It is wanting only where it is asked for: what else is malformed is refused as that.
        ensures memory { LacksOnlyAsked self.old (B.known backend.old) request.now result }

        // Whatever is answered, the service may be asked again.
        ensures serves { Serves self.new (B.known backend.new) }
        ensures home { B.home backend.new ≡ B.home backend.old }
    {
        let asked = match decode_request(alloc, request) {
            Ok(asked) => asked,
            Err(error) => return Err(of_wire(error)),
        };
        let outcome = self.respond(alloc, backend, &asked);
        spelled(alloc, outcome)
    }
}
