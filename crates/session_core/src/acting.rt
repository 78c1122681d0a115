//! What a line does.

ghost use Rattle.std.specs.Prelude.{◌≡◌, ◌≤◌, ◌<◌, ◌-◌, ◌^◌, length, ◌∷◌, [], IfOk, vec_len, vec_capacity};
ghost use Rattle.session_core.specs.Lines.{line_of};
ghost use Rattle.session_core.specs.Holding.{Attends, BodyIsReady};
ghost use Rattle.session_core.specs.code.Turning.{turn_of};
ghost use Rattle.session_core.specs.Stopping.{Does};
ghost use Rattle.session_core.specs.Sessions.{IsAccounted};
ghost use Rattle.session_core.specs.LinePrograms as programs;
ghost use Rattle.session_core.specs.Verbs.{Plays};

use crate::error::SessionError;
use crate::line::Line;
use crate::looking::look;
use crate::reading::read_line;
use crate::session::Session;
use crate::turn::Turn;
use crate::verbs::{begin, commit, give_up, go, step};
use crate::watches::{sync, unwatch, wait, watch};
use client_watches::{NewWatch, ReplyList};
use dio_core::LONGEST_LINE;
use docc_prepare::Backend;
use session_text::Reply;
use std::alloc::Global;
use watch_reruns::Rerunner;

/// One reply, in the memory that was taken for it.
#[inline(always)]
fn placed(place: Vec<Reply>, reply: Reply) -> ReplyList
    requires none { place.items ≡ [] }
    requires room { vec_len place < vec_capacity place }
    ensures { result ≡ reply ∷ [] }
{
    let mut place = place;
    let _ = place.push(reply);
    ReplyList::from_vec(place)
}

/// The turn of a line with one reply.
#[inline(always)]
fn said(place: Vec<Reply>, reply: Result<Reply, SessionError>) -> Result<Turn, SessionError>
    requires none { place.items ≡ [] }
    requires room { vec_len place < vec_capacity place }
    ensures { result ≡ turn_of reply }
{
    match reply {
        Ok(reply) => Ok(Turn::Replies(placed(place, reply))),
        Err(error) => Err(error),
    }
}

/// Does what a line asks for. The memory for its reply is taken before.
fn act<B: Backend, R: Rerunner>(
    alloc: Global,
    backend: &mut B,
    reruns: &R,
    session: &mut Session,
    line: Line,
) -> Result<Turn, SessionError>
    requires attends { Attends (B.known backend.old) session.old }
    requires ready { BodyIsReady line }
    requires room { session.old.seq < 2 ^ 64 - 1 }
    ensures plays { Does B.known B.goes backend.old
        (programs.line_over (B.known backend.old) session.old line) result
        (λ turn. (session.new, turn)) backend.new }
    ensures home { B.home backend.new ≡ B.home backend.old }
{
    let place = Vec::with_capacity(alloc, 1)?;
    match line {
        Line::Quiet => Ok(Turn::Quiet),
        Line::Refused(reason) => said(place, Ok(Reply::Refused(reason))),
        Line::Begin(body) => said(place, begin(alloc, backend, session, body)),
        Line::Try(tries, body) => said(place, commit(alloc, backend, session, tries, body)),
        Line::Step => said(place, step(alloc, backend, session)),
        Line::Go => said(place, go(alloc, backend, session)),
        Line::Drop => said(place, Ok(give_up(session))),
        Line::Look(body) => said(place, look(alloc, backend, session, None, &body)),
        Line::At(number, body) => said(place, look(alloc, backend, session, Some(number), &body)),
        Line::Watch(name, body) => {
            watch(alloc, backend, reruns, session, NewWatch { name, body })
        }
        Line::Unwatch(name) => unwatch(alloc, backend, session, &name),
        Line::Sync => sync(alloc, backend, reruns, session),
        Line::Wait => wait(alloc, backend, reruns, session),
        Line::Seen => said(place, Ok(Reply::Seen(backend.seen()))),
        Line::Quit => {
            session.attempt = None;
            Ok(Turn::Ended(placed(place, Reply::Dropped)))
        }
    }
}

/// Does a line of a session that isn't over.
pub fn turn<B: Backend, R: Rerunner>(
    alloc: Global,
    backend: &mut B,
    reruns: &R,
    session: &mut Session,
    bytes: &[u8],
) -> Result<Turn, SessionError>
    requires attends { Attends (B.known backend.old) session.old }
    requires short { length bytes.now ≤ LONGEST_LINE }
    ensures plays { Plays B.known B.goes backend.old
        (programs.line_over (B.known backend.old) session.old (line_of bytes.now)) result
        (λ turn. (session.new, turn)) backend.new }
    ensures accounted { IsAccounted (B.known backend.old) (B.known backend.new) session.old
        (line_of bytes.now) result session.new }
    ensures attends { IfOk result (λ turn. Attends (B.known backend.new) session.new) }
    ensures home { B.home backend.new ≡ B.home backend.old }
{
    if session.seq == u64::MAX {
        return Err(SessionError::NoMemory);
    }
    let line = read_line(alloc, bytes)?;
    act(alloc, backend, reruns, session, line)
}

/// Brings the watches of a session that isn't over up to date.
pub fn sync_turn<B: Backend, R: Rerunner>(
    alloc: Global,
    backend: &mut B,
    reruns: &R,
    session: &mut Session,
) -> Result<Turn, SessionError>
    requires attends { Attends (B.known backend.old) session.old }
    ensures plays { Plays B.known B.goes backend.old (programs.sync session.old) result
        (λ turn. (session.new, turn)) backend.new }
    ensures accounted { IsAccounted (B.known backend.old) (B.known backend.new) session.old
        Line.Sync result session.new }
    ensures attends { IfOk result (λ turn. Attends (B.known backend.new) session.new) }
    ensures home { B.home backend.new ≡ B.home backend.old }
{
    sync(alloc, backend, reruns, session)
}
