//! `serve` over a store in memory.

ghost use Rattle.std.specs.Prelude.{◌≡◌, [], IfOk, OnOk, OnErr};
ghost use Rattle.script_runner.specs.Script.{writing};
ghost use Rattle.diamond_server.specs.Promises.{sides};
ghost use Rattle.diamond_server.specs.Accounts.{gatherings, AreEnded};
ghost use Rattle.diamond_cli.specs.Serving.{promised_of, IsEnded, ServesLinks, EndsLinks};

use crate::line::say;
use crate::service::{Asked, Service};
use crate::sessions::serve_kept;
use diamond_server::{Serves, SessionLines};
use dio_core::{Listener, Sink};
use journal_core::MemKeep;
use par_rerun::{NoMeet, Parallel};
use script_runner::NO_MEMORY;
use std::alloc::{AllocError, Global};
use std::sync::Wait;
use std::thread::Threads;
use txn_lang::CommitList;
use wire_server::Requests;

/// Serves, and answers the status, unless memory was wanting. Then nothing was written.
fn serve_links<W: Sink, Li: Listener, V: Serves + Sync, R: Threads + Wait + Sync>(
    alloc: Global,
    sink: &mut W,
    listener: &mut Li,
    service: &Service<'_, V, R>,
) -> Result<u8, AllocError>
    ensures ended { IfOk result (λ status. IsEnded V.promised (sides Li.Link.Source Li.Link.Sink)
        service.now.settings service.now.sessions (gatherings Li.Listener listener.old listener.new)
        [] 0 0 status (writing W.Sink sink.old sink.new)) }
    ensures ends { OnOk result (AreEnded Li.Link.ended
        (Li.given_back listener.old) (Li.given_back listener.new)) }
    ensures unwritten { OnErr result (sink.new ≡ sink.old) }
{
    let none = CommitList::new(alloc);
    let served = serve_kept(alloc, MemKeep, none, listener, service)?;
    say(alloc, served.tally, &served.commits, sink)
}

/// Serves links in this way, and answers the status.
fn serve_way<W: Sink, Li: Listener, V: Serves + Sync, R: Threads + Wait + Sync>(
    alloc: Global,
    sink: &mut W,
    listener: &mut Li,
    service: &Service<'_, V, R>,
) -> u8
    ensures serves { ServesLinks V.promised (sides Li.Link.Source Li.Link.Sink)
        service.now.settings service.now.sessions (gatherings Li.Listener listener.old listener.new)
        result (writing W.Sink sink.old sink.new) }
    ensures ends { EndsLinks Li.Link.ended
        (gatherings Li.Listener listener.old listener.new) result }
{
    match serve_links(alloc, sink, listener, service) {
        Ok(status) => status,
        Err(AllocError) => NO_MEMORY,
    }
}

/// Serves at most so many links over one store in memory, each in a thread of its own, and writes what came of them to the sink. Each
/// brings the lines of a session, or requests of the wire. It answers a status.
///
/// 0: all sessions have ended, and the line was written and passed on. 4: a write or the flush failed. 5: there was no memory.
/// 8: an accept failed; the running sessions ended first, and the line was tried.
pub(crate) fn serve<W: Sink, Li: Listener, R: Threads + Wait + Sync>(
    alloc: Global,
    asked: &Asked<'_, R>,
    sink: &mut W,
    listener: &mut Li,
) -> u8
    ensures serves { ServesLinks (promised_of asked.now.wire) (sides Li.Link.Source Li.Link.Sink)
        asked.now.settings asked.now.sessions (gatherings Li.Listener listener.old listener.new)
        result (writing W.Sink sink.old sink.new) }
    ensures ends { EndsLinks Li.Link.ended
        (gatherings Li.Listener listener.old listener.new) result }
{
    if asked.wire {
        let requests = Service {
            rt: asked.rt,
            settings: asked.settings,
            sessions: asked.sessions,
            relayed: false,
            way: &Requests,
        };
        serve_way(alloc, sink, listener, &requests)
    } else {
        let reruns = Parallel::new(asked.rt, NoMeet);
        let lines = Service {
            rt: asked.rt,
            settings: asked.settings,
            sessions: asked.sessions,
            relayed: false,
            way: &SessionLines { reruns: &reruns },
        };
        serve_way(alloc, sink, listener, &lines)
    }
}
