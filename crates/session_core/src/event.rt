//! One event of an attempt: the call that its next event is, and what the answer makes of it.

ghost use Rattle.std.specs.Prelude.{◌≡◌, Some, None, IfOk, OnOk, Err};
ghost use Rattle.docc_prepare.specs.declared.attempt.Attempt.{Attempt};
ghost use Rattle.docc_prepare.specs.Attempts.{in_shard, based, next_event, ready_of, with_front, KeepsPauses, Prepares};
ghost use Rattle.docc_prepare.specs.Calls.{snap_answered, front_answered, commit_answered};
ghost use Rattle.docc_prepare.specs.Backends.{CanAppend};
ghost use Rattle.session_core.specs.Events.{closed};
ghost use Rattle.session_core.specs.Holding.{Attends, Holds};
ghost use Rattle.session_core.specs.code.Turning.{Turned, Appends, moved_on_read, moved_on_prepare, moved_on_append};
ghost use Rattle.session_core.specs.Remembering.{AreAllOf, IsKnownOf, Remembers};
ghost use Rattle.session_core.specs.code.Approaching.{IsReadyOf, Nears};
ghost use Rattle.session_core.specs.Verbs as verbs;
ghost use Rattle.session_core.specs.Verbs.{was_read, was_prepared};
ghost use Rattle.session_core.specs.Stopping.{Does};

use crate::approach::{Approach, LastRun};
use crate::error::SessionError;
use crate::moved::Moved;
use crate::remembered::Remembered;
use crate::session::Session;
use abort_witness::BasedList;
use docc_prepare::{AppendError, Attempt, Backend, Next, PrepareError, StoreError};
use journal_core::{Barred, Ready};
use rdt_types::{Address, Outcome};
use session_text::Reply;
use std::alloc::{AllocError, Global};
use txn_lang::{Checked, Run, Snap};
use version_shard::Prepared;

/// What an answered read makes of an attempt, and the front at which the value was read.
#[inline(always)]
fn after_read(
    attempt: &mut Attempt,
    address: Address,
    answer: Result<Snap, StoreError>,
) -> Result<u64, SessionError>
    requires { next_event attempt.old ≡ Next.Read address }
    ensures turned { Turned attempt.old (snap_answered answer)
        (moved_on_read address attempt.new result) }
    ensures pauses { OnOk result (KeepsPauses attempt.old attempt.new) }
{
    match answer {
        Ok(snap) => {
            let base = snap.base;
            match attempt.take_snap(address, snap) {
                Ok(()) => Ok(base),
                Err(AllocError) => Err(SessionError::NoMemory),
            }
        }
        Err(StoreError::Fault) => Err(SessionError::StoreFault),
        Err(StoreError::NoMemory) => Err(SessionError::NoMemory),
    }
}

/// What an answered preparing of a shard makes of an attempt: it has a front more, or has ended with a reply.
#[inline(always)]
fn after_prepare(
    attempt: &mut Attempt,
    shard: u8,
    answer: Result<Prepared, PrepareError>,
) -> Result<Result<u64, Reply>, SessionError>
    requires { Prepares attempt.old shard }
    ensures turned { Turned attempt.old (front_answered answer)
        (moved_on_prepare shard attempt.new result) }
    ensures pauses { IfOk result (λ front. OnOk front (KeepsPauses attempt.old attempt.new)) }
    ensures front { IfOk result (λ front. IfOk front (λ f.
        attempt.new ≡ with_front attempt.old shard f)) }
{
    match answer {
        Ok(prepared) => {
            let front = prepared.front;
            match attempt.take_prepared(Prepared { shard, front }) {
                Ok(()) => Ok(Ok(front)),
                Err(AllocError) => Err(SessionError::NoMemory),
            }
        }
        Err(error) => match error {
            PrepareError::Late(base, horizon) => Ok(Err(Reply::Late(base, horizon))),
            PrepareError::Clash(witness) => Ok(Err(Reply::Abort(witness))),
            PrepareError::Fault => Err(SessionError::StoreFault),
            PrepareError::NoMemory => Err(SessionError::NoMemory),
        },
    }
}

/// The reply with which an attempt ends at an answered append.
#[inline(always)]
fn after_append(outcome: Outcome, answer: Result<u64, AppendError>) -> Result<Reply, SessionError>
    ensures { (a : Attempt) → Appends a outcome →
        Turned a (commit_answered answer) (moved_on_append a result) }
{
    match answer {
        Ok(number) => Ok(Reply::Commit(number, outcome)),
        Err(error) => match error {
            AppendError::Clash(witness) => Ok(Reply::Abort(witness)),
            AppendError::Held(Barred { client, at }) => Ok(Reply::Held(client, at)),
            AppendError::Full(limit) => Ok(Reply::Full(limit)),
            AppendError::Disk => Ok(Reply::Disk),
            AppendError::Fault => Err(SessionError::StoreFault),
            AppendError::NoMemory => Err(SessionError::NoMemory),
        },
    }
}

/// A copy of an address.
fn copied(address: &Address) -> Result<Address, SessionError>
    ensures ok { IfOk result (λ copy. copy ≡ address.now) }
    ensures err { (e : SessionError) → result ≡ Err e → e ≡ SessionError.NoMemory }
{
    match address.clone() {
        Ok(copy) => Ok(copy),
        Err(AllocError) => Err(SessionError::NoMemory),
    }
}

/// Reads the value that an attempt needs, and answers the front at which it was read.
#[inline(always)]
fn read_event<B: Backend>(
    backend: &mut B,
    session: &Session,
    attempt: &mut Attempt,
    address: Address,
) -> Result<u64, SessionError>
    requires attends { Attends (B.known backend.old) (closed session.now) }
    requires holds { Holds (B.known backend.old) attempt.old }
    requires next { next_event attempt.old ≡ Next.Read address }
    ensures plays { Does B.known B.goes backend.old (verbs.event session.now attempt.old) result
        (was_read address attempt.new) backend.new }
    ensures pauses { OnOk result (KeepsPauses attempt.old attempt.new) }
    ensures home { B.home backend.new ≡ B.home backend.old }
{
    let answer = backend.read(&address);
    after_read(attempt, address, answer)
}

/// Prepares a shard for an attempt: it has a front more, or has ended with a reply.
#[inline(always)]
fn prepare_event<B: Backend>(
    backend: &mut B,
    attempt: &mut Attempt,
    shard: u8,
    run: &Run,
    all: &BasedList,
) -> Result<Result<u64, Reply>, SessionError>
    requires holds { Holds (B.known backend.old) attempt.old }
    requires next { next_event attempt.old ≡ Next.Prepare shard run.now }
    requires all { all.now
        ≡ in_shard attempt.old.shards shard (based attempt.old.snaps run.now.observations) }
    ensures plays { (s : Session) → Does B.known B.goes backend.old (verbs.event s attempt.old)
        result (was_prepared shard attempt.new) backend.new }
    ensures pauses { IfOk result (λ front. OnOk front (KeepsPauses attempt.old attempt.new)) }
    ensures front { IfOk result (λ front. IfOk front (λ f.
        attempt.new ≡ with_front attempt.old shard f)) }
    ensures home { B.home backend.new ≡ B.home backend.old }
{
    let answer = backend.prepare(shard, all);
    after_prepare(attempt, shard, answer)
}

/// What is handed to the journal, where the observations with bases are at hand.
#[inline(always)]
fn ready_with(
    session: &Session,
    attempt: &Attempt,
    run: Run,
    based: BasedList,
) -> Result<Ready, AllocError>
    requires { AreAllOf attempt.now run (Some based) }
    ensures { IfOk result (λ ready.
        ready ≡ ready_of attempt.now run session.now.client session.now.seq) }
{
    Ok(Ready {
        client: session.client,
        seq: session.seq,
        body: attempt.body.source.clone()?,
        run,
        based,
        fronts: attempt.fronts.clone()?,
    })
}

/// What is handed to the journal. Observations with bases that are at hand aren't made again.
#[inline(always)]
fn readied(
    alloc: Global,
    session: &Session,
    attempt: &Attempt,
    last: LastRun,
) -> Result<Ready, SessionError>
    requires next { next_event attempt.now ≡ Next.Append last.run }
    requires based { AreAllOf attempt.now last.run last.based }
    ensures ok { IfOk result (λ ready.
        ready ≡ ready_of attempt.now last.run session.now.client session.now.seq) }
    ensures err { (e : SessionError) → result ≡ Err e → e ≡ SessionError.NoMemory }
{
    let LastRun { run, based } = last;
    let ready = match based {
        Some(all) => ready_with(session, attempt, run, all),
        None => attempt.ready(alloc, run, session.client, session.seq),
    };
    match ready {
        Ok(ready) => Ok(ready),
        Err(AllocError) => Err(SessionError::NoMemory),
    }
}

/// Hands to the journal what was made of an attempt whose append is next, and answers the reply with which that ends.
#[inline(always)]
fn handed<B: Backend>(backend: &mut B, ready: Ready) -> Result<Reply, SessionError>
    requires { CanAppend (B.known backend.old) ready }
    ensures plays { (s : Session) (a : Attempt) → IsReadyOf s a ready →
        Does B.known B.goes backend.old (verbs.event s a) result (Moved.End a) backend.new }
    ensures home { B.home backend.new ≡ B.home backend.old }
{
    let answer = backend.append(&ready);
    let Ready { run, .. } = ready;
    after_append(run.outcome, answer)
}

/// Hands an attempt to the journal, and answers the reply with which it ends.
#[inline(always)]
pub fn append_event<B: Backend>(
    alloc: Global,
    backend: &mut B,
    session: &Session,
    attempt: &Attempt,
    last: LastRun,
) -> Result<Reply, SessionError>
    requires attends { Attends (B.known backend.old) (closed session.now) }
    requires holds { Holds (B.known backend.old) attempt.now }
    requires next { next_event attempt.now ≡ Next.Append last.run }
    requires based { AreAllOf attempt.now last.run last.based }
    ensures plays { Does B.known B.goes backend.old (verbs.event session.now attempt.now) result
        (Moved.End attempt.now) backend.new }
    ensures home { B.home backend.new ≡ B.home backend.old }
{
    let ready = readied(alloc, session, attempt, last)?;
    handed(backend, ready)
}

/// What is handed to the journal of an attempt that isn't needed again. Where observations with bases are at hand, its text and its
/// fronts are moved.
#[inline(always)]
fn last_readied(
    alloc: Global,
    session: &Session,
    attempt: Attempt,
    last: LastRun,
) -> Result<Ready, SessionError>
    requires next { next_event attempt ≡ Next.Append last.run }
    requires based { AreAllOf attempt last.run last.based }
    ensures ok { IfOk result (λ ready.
        ready ≡ ready_of attempt last.run session.now.client session.now.seq) }
    ensures err { (e : SessionError) → result ≡ Err e → e ≡ SessionError.NoMemory }
{
    let LastRun { run, based } = last;
    let Some(based) = based else {
        return readied(alloc, session, &attempt, LastRun { run, based: None });
    };
    let Attempt { body, fronts, .. } = attempt;
    let Checked { source, .. } = body;
    Ok(Ready {
        client: session.client,
        seq: session.seq,
        body: source,
        run,
        based,
        fronts,
    })
}

/// Hands an attempt that isn't needed again to the journal, and answers the reply with which it ends.
#[inline(always)]
pub fn append_last<B: Backend>(
    alloc: Global,
    backend: &mut B,
    session: &Session,
    attempt: Attempt,
    last: LastRun,
) -> Result<Reply, SessionError>
    requires attends { Attends (B.known backend.old) (closed session.now) }
    requires holds { Holds (B.known backend.old) attempt }
    requires next { next_event attempt ≡ Next.Append last.run }
    requires based { AreAllOf attempt last.run last.based }
    ensures plays { Does B.known B.goes backend.old (verbs.event session.now attempt) result
        (Moved.End attempt) backend.new }
    ensures home { B.home backend.new ≡ B.home backend.old }
{
    let ready = last_readied(alloc, session, attempt, last)?;
    handed(backend, ready)
}

/// The next event of an attempt, by what is known of its run. A run that is known is taken.
#[inline(always)]
fn next_of(alloc: Global, attempt: &Attempt, known: &mut Remembered) -> Result<Next, SessionError>
    requires { IsKnownOf attempt.now known.old }
    ensures ok { IfOk result (λ next. next ≡ next_event attempt.now) }
    ensures known { IfOk result (λ next. IsKnownOf attempt.now known.new) }
    ensures taken { IfOk result (λ next. known.new.ran ≡ None) }
    ensures err { (e : SessionError) → result ≡ Err e → e ≡ SessionError.NoMemory }
{
    if let Some(run) = known.ran.take() {
        return Ok(attempt.next_on(run));
    }
    match attempt.next_from(alloc, &mut known.pause) {
        Ok(next) => Ok(next),
        Err(AllocError) => Err(SessionError::NoMemory),
    }
}

/// The next event of an attempt of which nothing is known.
fn next_anew(alloc: Global, attempt: &Attempt) -> Result<Next, SessionError>
    ensures ok { IfOk result (λ next. next ≡ next_event attempt.now) }
    ensures err { (e : SessionError) → result ≡ Err e → e ≡ SessionError.NoMemory }
{
    match attempt.next(alloc) {
        Ok(next) => Ok(next),
        Err(AllocError) => Err(SessionError::NoMemory),
    }
}

/// Makes the next event of an attempt of a session, by what is known of its run, unless that is the append. What is then known of
/// the run stands in that place: a read leaves it where it has paused, and a preparing changes nothing of it. It answers where the
/// attempt has come to, if it has ended or its append is next.
#[inline(always)]
pub fn event_on<B: Backend>(
    alloc: Global,
    backend: &mut B,
    session: &Session,
    attempt: &mut Attempt,
    known: &mut Remembered,
) -> Result<Option<Approach>, SessionError>
    requires attends { Attends (B.known backend.old) (closed session.now) }
    requires holds { Holds (B.known backend.old) attempt.old }
    requires known { IsKnownOf attempt.old known.old }
    ensures nears { Nears B.known B.goes session.now backend.old attempt.old result backend.new
        attempt.new }
    ensures known { IfOk result (λ near. Remembers attempt.new near known.new) }
    ensures home { B.home backend.new ≡ B.home backend.old }
{
    match next_of(alloc, attempt, known)? {
        Next::Read(address) => {
            read_event(backend, session, attempt, address)?;
            Ok(None)
        }
        Next::Prepare(shard, run) => {
            let all = attempt.based(alloc, &run, shard)?;
            match prepare_event(backend, attempt, shard, &run, &all)? {
                Ok(_) => {
                    // One shard has all that was observed, so the append is next.
                    if all.len() == run.observations.len() {
                        let based = Some(all);
                        return Ok(Some(Approach::Append(LastRun { run, based })));
                    }
                    known.ran = Some(run);
                    Ok(None)
                }
                Err(reply) => Ok(Some(Approach::End(reply))),
            }
        }
        Next::Append(run) => Ok(Some(Approach::Append(LastRun { run, based: None }))),
    }
}

/// Makes the next event of an attempt of a session.
pub fn event<B: Backend>(
    alloc: Global,
    backend: &mut B,
    session: &Session,
    attempt: Attempt,
) -> Result<Moved, SessionError>
    requires attends { Attends (B.known backend.old) (closed session.now) }
    requires holds { Holds (B.known backend.old) attempt }
    ensures plays { Does B.known B.goes backend.old (verbs.event session.now attempt) result
        (λ moved. moved) backend.new }
    ensures home { B.home backend.new ≡ B.home backend.old }
{
    let mut attempt = attempt;
    match next_anew(alloc, &attempt)? {
        Next::Read(address) => {
            let shown = copied(&address)?;
            let base = read_event(backend, session, &mut attempt, address)?;
            Ok(Moved::More(attempt, Reply::Read(shown, base)))
        }
        Next::Prepare(shard, run) => {
            let all = attempt.based(alloc, &run, shard)?;
            match prepare_event(backend, &mut attempt, shard, &run, &all)? {
                Ok(front) => Ok(Moved::More(attempt, Reply::Prepared(shard, front))),
                Err(reply) => Ok(Moved::End(attempt, reply)),
            }
        }
        Next::Append(run) => {
            let last = LastRun { run, based: None };
            let reply = append_event(alloc, backend, session, &attempt, last)?;
            Ok(Moved::End(attempt, reply))
        }
    }
}
