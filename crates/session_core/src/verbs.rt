//! The verbs of a session, each with one reply.

ghost use Rattle.std.specs.Prelude.{◌≡◌, ◌<◌, ◌^◌, ◌-◌};
ghost use Rattle.session_core.specs.Events as spec;
ghost use Rattle.session_core.specs.Events.{seq_after, said};
ghost use Rattle.session_core.specs.Holding.{Attends, IsReady};
ghost use Rattle.session_core.specs.Verbs as verbs;
ghost use Rattle.session_core.specs.Stopping.{Does};
ghost use Rattle.call_programs.specs.Programs.{Program};

use crate::driving::{drive, try_times};
use crate::error::SessionError;
use crate::event::event;
use crate::moved::Moved;
use crate::session::Session;
use docc_prepare::{Attempt, Backend};
use session_text::{Reply, Why};
use std::alloc::Global;
use txn_lang::Checked;

/// The seq after a reply: a commit takes one.
fn next_seq(seq: u64, reply: &Reply) -> u64
    requires { seq < 2 ^ 64 - 1 }
    ensures { result ≡ seq_after seq reply.now }
{
    match reply {
        Reply::Commit(_, _) => seq + 1,
        _ => seq,
    }
}

/// An attempt at a body, of which nothing is read.
fn opened<B: Backend>(alloc: Global, backend: &B, body: Checked) -> Attempt
    ensures { result ≡ spec.opened (B.known backend.now).shards body }
{
    Attempt::begin(alloc, body, backend.shards())
}

/// `begin`: a refresh, and an attempt is open.
pub fn begin<B: Backend>(
    alloc: Global,
    backend: &mut B,
    session: &mut Session,
    body: Checked,
) -> Result<Reply, SessionError>
    requires attends { Attends (B.known backend.old) session.old }
    requires ready { IsReady body }
    ensures plays { Does B.known B.goes backend.old
        (verbs.begin (B.known backend.old).shards session.old body) result
        (λ reply. (session.new, said reply)) backend.new }
    ensures home { B.home backend.new ≡ B.home backend.old }
{
    if session.attempt.is_some() {
        return Ok(Reply::Refused(Why::Busy));
    }
    let attempt = opened(alloc, backend, body);
    let seen = backend.refresh()?;
    session.attempt = Some(attempt);
    Ok(Reply::Seen(seen))
}

/// `do` and `try`: attempts, until one doesn't end in an abort.
pub fn commit<B: Backend>(
    alloc: Global,
    backend: &mut B,
    session: &mut Session,
    tries: u8,
    body: Checked,
) -> Result<Reply, SessionError>
    requires attends { Attends (B.known backend.old) session.old }
    requires ready { IsReady body }
    requires room { session.old.seq < 2 ^ 64 - 1 }
    ensures plays { Does B.known B.goes backend.old
        (verbs.commit (B.known backend.old).shards tries session.old body) result
        (λ reply. (session.new, said reply)) backend.new }
    ensures home { B.home backend.new ≡ B.home backend.old }
{
    if session.attempt.is_some() {
        return Ok(Reply::Refused(Why::Busy));
    }
    let attempt = opened(alloc, backend, body);
    let reply = try_times(alloc, backend, session, tries, attempt)?;
    session.seq = next_seq(session.seq, &reply);
    Ok(reply)
}

/// `step`: one event of the open attempt.
pub fn step<B: Backend>(
    alloc: Global,
    backend: &mut B,
    session: &mut Session,
) -> Result<Reply, SessionError>
    requires attends { Attends (B.known backend.old) session.old }
    requires room { session.old.seq < 2 ^ 64 - 1 }
    ensures plays { Does B.known B.goes backend.old (verbs.step session.old) result
        (λ reply. (session.new, said reply)) backend.new }
    ensures home { B.home backend.new ≡ B.home backend.old }
{
    match session.attempt.take() {
        None => Ok(Reply::Refused(Why::NoAttempt)),
        Some(attempt) => match event(alloc, backend, session, attempt)? {
            Moved::More(attempt, reply) => {
                session.attempt = Some(attempt);
                Ok(reply)
            }
            Moved::End(_, reply) => {
                session.seq = next_seq(session.seq, &reply);
                Ok(reply)
            }
        },
    }
}

/// `go`: events of the open attempt until its end.
pub fn go<B: Backend>(
    alloc: Global,
    backend: &mut B,
    session: &mut Session,
) -> Result<Reply, SessionError>
    requires attends { Attends (B.known backend.old) session.old }
    requires room { session.old.seq < 2 ^ 64 - 1 }
    ensures plays { Does B.known B.goes backend.old (verbs.go session.old) result
        (λ reply. (session.new, said reply)) backend.new }
    ensures home { B.home backend.new ≡ B.home backend.old }
{
    match session.attempt.take() {
        None => Ok(Reply::Refused(Why::NoAttempt)),
        Some(attempt) => {
            let reply = drive(alloc, backend, session, attempt)?;
            session.seq = next_seq(session.seq, &reply);
            Ok(reply)
        }
    }
}

/// `drop`: the open attempt is given up.
pub fn give_up(session: &mut Session) -> Reply
    ensures plays { verbs.give_up session.old ≡ Program.ends (session.new, said result) }
{
    match session.attempt.take() {
        None => Reply::Refused(Why::NoAttempt),
        Some(_) => Reply::Dropped,
    }
}
