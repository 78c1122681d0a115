//! Attempts of a session: events to the end, and attempts one after another.

ghost use Rattle.std.specs.Prelude.{◌≡◌, ◌-◌};
ghost use Rattle.session_core.specs.Events as spec;
ghost use Rattle.session_core.specs.Events.{closed};
ghost use Rattle.session_core.specs.code.Approaching.{Approaches, DoesLast};
ghost use Rattle.session_core.specs.code.Turning as turning;
ghost use Rattle.session_core.specs.Holding.{Attends, Holds};
ghost use Rattle.session_core.specs.Stopping.{Does};
ghost use Rattle.session_core.specs.Verbs as verbs;

use crate::approach::Approach;
use crate::error::SessionError;
use crate::event::{append_event, append_last, event_on};
use crate::limits::MOST_EVENTS;
use crate::remembered::Remembered;
use crate::session::Session;
use docc_prepare::{Attempt, Backend};
use session_text::Reply;
use std::alloc::Global;
use txn_eval::Pause;

/// Makes events of an attempt until its append is next, or it has ended.
#[inline(always)]
fn until_append<B: Backend>(
    alloc: Global,
    backend: &mut B,
    session: &Session,
    attempt: &mut Attempt,
) -> Result<Approach, SessionError>
    requires attends { Attends (B.known backend.old) (closed session.now) }
    requires holds { Holds (B.known backend.old) attempt.old }
    ensures approaches { Approaches B.known B.goes session.now backend.old attempt.old result
        backend.new attempt.new }
    ensures home { B.home backend.new ≡ B.home backend.old }
{
    let mut known = Remembered {
        ran: None,
        pause: Pause::begun(alloc),
    };
    for _ in 0..MOST_EVENTS {
        let near = event_on(alloc, backend, session, attempt, &mut known)?;
        if let Some(end) = near {
            return Ok(end);
        }
    }
    // An attempt makes no more events than its run has ticks, the store has shards, and one.
    unreachable!()
}

/// Makes events of an attempt until its end, and answers the reply that shows that. The attempt isn't needed again.
pub fn drive<B: Backend>(
    alloc: Global,
    backend: &mut B,
    session: &Session,
    attempt: Attempt,
) -> Result<Reply, SessionError>
    requires attends { Attends (B.known backend.old) (closed session.now) }
    requires holds { Holds (B.known backend.old) attempt }
    ensures plays { DoesLast B.known B.goes backend.old (verbs.drive session.now attempt) result
        backend.new }
    ensures home { B.home backend.new ≡ B.home backend.old }
{
    let mut attempt = attempt;
    let end = until_append(alloc, backend, session, &mut attempt)?;
    match end {
        Approach::End(reply) => Ok(reply),
        Approach::Append(last) => append_last(alloc, backend, session, attempt, last),
    }
}

/// One attempt from its beginning to its end: a refresh, and its events.
fn attempt_once<B: Backend>(
    alloc: Global,
    backend: &mut B,
    session: &Session,
    attempt: &mut Attempt,
) -> Result<Reply, SessionError>
    requires attends { Attends (B.known backend.old) (closed session.now) }
    requires holds { Holds (B.known backend.old) attempt.old }
    ensures plays { Does B.known B.goes backend.old
        (verbs.attempt_once session.now attempt.old) result
        (λ reply. (attempt.new, reply)) backend.new }
    ensures home { B.home backend.new ≡ B.home backend.old }
{
    backend.refresh()?;
    let end = until_append(alloc, backend, session, attempt)?;
    match end {
        Approach::End(reply) => Ok(reply),
        Approach::Append(last) => append_event(alloc, backend, session, attempt, last),
    }
}

/// The attempt, of which nothing is read any more.
fn afresh(alloc: Global, attempt: Attempt) -> Attempt
    ensures { result ≡ spec.afresh attempt }
{
    let Attempt { body, shards, .. } = attempt;
    Attempt::begin(alloc, body, shards)
}

/// Whether an attempt was aborted.
fn is_abort(reply: &Reply) -> bool
    ensures { result ≡ turning.is_abort reply.now }
{
    match reply {
        Reply::Abort(_) => true,
        _ => false,
    }
}

/// The reply with which an attempt ends, unless it is an abort: behind that another attempt may follow.
fn unless_abort(reply: Reply) -> Option<Reply>
    ensures { result ≡ verbs.unless_abort reply }
{
    if is_abort(&reply) {
        return None;
    }
    Some(reply)
}

/// Makes attempts at a body, one at least and at most so many, until one doesn't end in an abort. It answers the last end.
pub fn try_times<B: Backend>(
    alloc: Global,
    backend: &mut B,
    session: &Session,
    tries: u8,
    attempt: Attempt,
) -> Result<Reply, SessionError>
    requires attends { Attends (B.known backend.old) (closed session.now) }
    requires holds { Holds (B.known backend.old) attempt }
    ensures plays { Does B.known B.goes backend.old
        (verbs.try_times (tries - 1) session.now attempt) result (λ reply. reply) backend.new }
    ensures home { B.home backend.new ≡ B.home backend.old }
{
    let mut attempt = attempt;
    for _ in 1..tries {
        let reply = attempt_once(alloc, backend, session, &mut attempt)?;
        if let Some(shown) = unless_abort(reply) {
            return Ok(shown);
        }
        attempt = afresh(alloc, attempt);
    }
    // The last attempt isn't needed again.
    backend.refresh()?;
    drive(alloc, backend, session, attempt)
}
