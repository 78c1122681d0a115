//! The lines of watches: what a session asks of its watches, and what that is as a turn of the session.

ghost use Rattle.std.specs.Prelude.{◌≡◌};
ghost use Rattle.session_core.specs.Holding.{Attends};
ghost use Rattle.session_core.specs.code.Turning.{watch_turn};
ghost use Rattle.session_core.specs.LinePrograms as programs;
ghost use Rattle.session_core.specs.Verbs.{Plays};

use crate::error::SessionError;
use crate::session::Session;
use crate::turn::Turn;
use client_watches::{NewWatch, ReplyList, WatchError};
use docc_prepare::Backend;
use plain_data::Text;
use std::alloc::Global;
use watch_reruns::Rerunner;

/// The turn of a line of watches.
fn turned(answer: Result<ReplyList, WatchError>) -> Result<Turn, SessionError>
    ensures { result ≡ watch_turn answer }
{
    match answer {
        Ok(replies) => Ok(Turn::Replies(replies)),
        Err(WatchError::StoreFault) => Err(SessionError::StoreFault),
        Err(WatchError::NoMemory) => Err(SessionError::NoMemory),
    }
}

/// `watch`.
pub fn watch<B: Backend, R: Rerunner>(
    alloc: Global,
    backend: &mut B,
    reruns: &R,
    session: &mut Session,
    new_watch: NewWatch,
) -> Result<Turn, SessionError>
    requires { Attends (B.known backend.old) session.old }
    ensures plays { Plays B.known B.goes backend.old
        (programs.watch session.old new_watch.name new_watch.body) result
        (λ turn. (session.new, turn)) backend.new }
    ensures home { B.home backend.new ≡ B.home backend.old }
{
    turned(session.watching.watch_by(alloc, backend, reruns, new_watch))
}

/// `unwatch`.
pub fn unwatch<B: Backend>(
    alloc: Global,
    backend: &mut B,
    session: &mut Session,
    name: &Text,
) -> Result<Turn, SessionError>
    requires { Attends (B.known backend.old) session.old }
    ensures plays { Plays B.known B.goes backend.old (programs.unwatch session.old name.now) result
        (λ turn. (session.new, turn)) backend.new }
    ensures home { B.home backend.new ≡ B.home backend.old }
{
    turned(session.watching.unwatch(alloc, backend, name))
}

/// `sync`.
pub fn sync<B: Backend, R: Rerunner>(
    alloc: Global,
    backend: &mut B,
    reruns: &R,
    session: &mut Session,
) -> Result<Turn, SessionError>
    requires { Attends (B.known backend.old) session.old }
    ensures plays { Plays B.known B.goes backend.old (programs.sync session.old) result
        (λ turn. (session.new, turn)) backend.new }
    ensures home { B.home backend.new ≡ B.home backend.old }
{
    turned(session.watching.sync_by(alloc, backend, reruns))
}

/// `wait`: as `sync`, once there is a commit past those that were seen.
pub fn wait<B: Backend, R: Rerunner>(
    alloc: Global,
    backend: &mut B,
    reruns: &R,
    session: &mut Session,
) -> Result<Turn, SessionError>
    requires { Attends (B.known backend.old) session.old }
    ensures plays { Plays B.known B.goes backend.old
        (programs.wait (B.known backend.old).seen session.old) result
        (λ turn. (session.new, turn)) backend.new }
    ensures home { B.home backend.new ≡ B.home backend.old }
{
    let seen = backend.seen();
    if seen < backend.refresh()? {
        sync(alloc, backend, reruns, session)
    } else {
        Ok(Turn::WaitWanted)
    }
}
