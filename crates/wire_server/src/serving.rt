//! The requests of one client over a link: they are read, answered and told, one after another.

ghost use Rattle.std.specs.Prelude.{◌≡◌, ◌<◌, ◌^◌, true, length, Ok, IfOk, OnOk};
ghost use Rattle.diamond_server.specs.Promises.{sides};
ghost use Rattle.docc_prepare.specs.Readable.{IsNew};
ghost use Rattle.remote_service.specs.Serving.{Serves};
ghost use Rattle.wire_server.specs.Promises.{KeepsPromises, TellsEachStoreFault};
ghost use Rattle.wire_server.specs.code.Serving as spec;
ghost use Rattle.wire_server.specs.code.Serving.{Turns, Ends};

use crate::link::{read_request, write_reply};
use crate::status::{Cause, MOST_REQUESTS, Stop, status_of, stop_of};
use dio_core::End;
use docc_prepare::Waiter;
use plain_data::{OrNoMemory, Text};
use remote_service::Service;
use std::alloc::Global;

/// The answer to a request.
fn answer<B: Waiter>(
    alloc: Global,
    backend: &mut B,
    service: &mut Service,
    request: &[u8],
) -> Result<Text, Stop>
    requires serves { Serves service.old (B.known backend.old) }
    ensures answers { spec.Serves B.known B.goes result service.old backend.old request.now service.new backend.new }
    ensures short { IfOk result (λ reply. length reply < 2 ^ 32) }
    ensures serves { OnOk result (Serves service.new (B.known backend.new)) }
    ensures home { B.home backend.new ≡ B.home backend.old }
{
    match service.answer(alloc, backend, request) {
        Ok(reply) => Ok(reply),
        Err(error) => Err(stop_of(error)),
    }
}

/// Reads a request, answers it and tells the answer. `true` says that another may follow.
fn serve_request<B: Waiter, K: End>(
    alloc: Global,
    backend: &mut B,
    link: &mut K,
    service: &mut Service,
) -> Result<bool, Stop>
    requires serves { Serves service.old (B.known backend.old) }
    ensures turns { Turns B.known B.goes result service.old backend.old (sides K.Source K.Sink link.old)
        service.new backend.new (sides K.Source K.Sink link.new) }
    ensures serves { result ≡ Ok true → Serves service.new (B.known backend.new) }
    ensures home { B.home backend.new ≡ B.home backend.old }
{
    let request = match read_request(alloc, link)? {
        Some(request) => request,
        None => return Ok(false),
    };
    let reply = answer(alloc, backend, service, request.as_slice())?;
    if write_reply(link, reply.as_slice()) {
        Ok(true)
    } else {
        Err(OrNoMemory::Cause(Cause::WriteFault))
    }
}

/// Answers the requests of a link to its end.
fn serve_requests<B: Waiter, K: End>(
    alloc: Global,
    backend: &mut B,
    link: &mut K,
) -> Result<(), Stop>
    requires new { IsNew (B.known backend.old) }
    ensures ends { Ends B.known B.goes result backend.old (sides K.Source K.Sink link.old)
        backend.new (sides K.Source K.Sink link.new) }
    ensures home { B.home backend.new ≡ B.home backend.old }
{
    let mut service = Service::new(alloc);
    for _ in 0..MOST_REQUESTS {
        if !serve_request(alloc, backend, link, &mut service)? {
            return Ok(());
        }
    }
    match read_request(alloc, link)? {
        None => Ok(()),
        Some(_) => Err(OrNoMemory::Cause(Cause::TooManyRequests)),
    }
}

/// Answers the requests of the backend's client that come over a link: each is read, answered and told before the next one is read.
/// The client has no commit yet. It answers a status.
///
/// 0: the link ended between two frames. 3: a read failed. 4: a write or a flush failed. 5: there was no memory. 6: the store failed.
/// 9: there is a frame behind that of the last request that is answered. 10: a request is malformed, has no byte or too many, or the
/// link ended within a frame.
pub fn serve_wire<B: Waiter, K: End>(alloc: Global, backend: &mut B, link: &mut K) -> u8
    requires new { IsNew (B.known backend.old) }
    ensures promises { KeepsPromises B.known B.goes result backend.old backend.new
        (sides K.Source K.Sink link.old) (sides K.Source K.Sink link.new) }
    ensures told { TellsEachStoreFault (B.known backend.old) (B.known backend.new) result }
    ensures home { B.home backend.new ≡ B.home backend.old }
{
    let ended = serve_requests(alloc, backend, link);
    status_of(ended)
}
