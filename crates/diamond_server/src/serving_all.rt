//! The sessions of all links of a listener, each in a thread of its own.

ghost use Rattle.std.specs.Prelude.{◌≡◌, ◌<◌, ◌+◌, ◌-◌, ◌^◌, ◌==◌, [], length, map, All, IfOk, OnOk};
ghost use Rattle.std.specs.Prelude.{if◌then◌else◌};
ghost use Rattle.diamond_store.specs.Answers.{Learns};
ghost use Rattle.script_runner.specs.declared.status.TheConstants.{WHOLE};
ghost use Rattle.diamond_server.specs.Accounts.{seat_of, joined_in, link_in, gatherings, AreEnded};
ghost use Rattle.diamond_server.specs.Accounts.{AllServedSince, ServedSince};
ghost use Rattle.diamond_server.specs.Promises.{sides};
ghost use Rattle.diamond_server.specs.code.Settling.{IsNear, JoinsSince, AcceptingSince, Settling};

use crate::begun::{Begun, begin};
use crate::ended::Ended;
use crate::shared::Shared;
use crate::ways::{Serves, SessionLines};
use diamond_store::{Gate, Pass, Store};
use dio_core::{Accepted, End, Listener};
use history_lock::Naming;
use journal_core::Keep;
use script_runner::WHOLE;
use std::alloc::{AllocError, Global};
use std::sync::Wait;
use std::thread;
use std::thread::{Scope, Threads};
use watch_reruns::{One, Rerunner};

/// What came of the links of a listener.
#[derive(Clone, Copy, Debug, PartialEq, Eq)]
pub struct Tally {
    /// How many links were accepted.
    pub accepted: u32,
    /// How many of them were given back with another status than 0.
    pub faulted: u32,
    /// Whether an accept failed, so that no more links were taken.
    pub failed: bool,
}

/// How the links of a listener are served.
#[derive(Drop)]
pub struct Serving<'a, K: Keep, G: Gate + Drop, N: Naming, S> {
    /// The store that each link's client joins.
    pub store: &'a Store<K, G, N>,
    /// The most links that are accepted.
    pub sessions: u32,
    /// The way in which each link is served.
    pub way: &'a S,
}

/// Accepts up to so many links, and serves each in this way for a new client of the store, in a thread of its own; one whose thread
/// can't be started is served by this thread. Behind the last one the listener is closed, while sessions go on, so that who comes
/// later is refused at once. Once all sessions have ended, the links are given back in the order of their accepting, each with its
/// status: that of its session, or, where it wasn't read, 13 where no client's number was left and 5 where there was no memory for
/// one.
///
/// An error says that there was no memory for the list of sessions, or to give a link back. The sessions have ended then, too.
pub fn serve_links<
    Li: Listener,
    K: Keep + Send,
    G: Gate + Drop + Send + Sync,
    N: Naming + Send + Sync,
    S: Serves + Sync,
    R: Threads + Wait + Sync,
>(
    rt: &R,
    alloc: Global,
    listener: &mut Li,
    pass: &mut Pass<K, N>,
    serving: &Serving<'_, K, G, N, S>,
) -> Result<Tally, AllocError>
    ensures learns { Learns pass.old pass.new }
    ensures served { IfOk result (AllServedSince S.promised (sides Li.Link.Source Li.Link.Sink)
        N.lock.first pass.old pass.new serving.now.sessions
        (gatherings Li.Listener listener.old listener.new)) }
    ensures ended { OnOk result (AreEnded Li.Link.ended
        (Li.given_back listener.old) (Li.given_back listener.new)) }
{
    S::tells_faults();
    let _sessions = serving.sessions;
    let ran: Result<(Vec<Ended<Li::Link, K, N, S>>, bool), AllocError> = run_scoped(
        rt, alloc, listener, pass, serving,
    );
    let (ended, failed) = ran?;
    let accepted = ended.len() as u32;
    let faulted = give_all(rt, listener, serving.store, pass, ended)?;
    Ok(Tally {
        accepted,
        faulted,
        failed,
    })
}

/// Accepts up to so many links, and serves each as a session of lines (`serve_session`) of a new client, as `serve_links` says.
pub fn serve_all<
    Li: Listener,
    K: Keep + Send,
    G: Gate + Drop + Send + Sync,
    N: Naming + Send + Sync,
    R: Threads + Wait + Sync,
>(
    rt: &R,
    alloc: Global,
    listener: &mut Li,
    store: &Store<K, G, N>,
    pass: &mut Pass<K, N>,
    sessions: u32,
) -> Result<Tally, AllocError>
    ensures learns { Learns pass.old pass.new }
    ensures served { IfOk result (ServedSince (sides Li.Link.Source Li.Link.Sink)
        N.lock.first pass.old pass.new sessions
        (gatherings Li.Listener listener.old listener.new)) }
    ensures ended { OnOk result (AreEnded Li.Link.ended
        (Li.given_back listener.old) (Li.given_back listener.new)) }
{
    serve_all_by(rt, alloc, listener, store, pass, sessions, &One)
}

/// The same, where reruns of watches are made by others, whom all sessions share.
pub fn serve_all_by<
    Li: Listener,
    K: Keep + Send,
    G: Gate + Drop + Send + Sync,
    N: Naming + Send + Sync,
    R: Threads + Wait + Sync,
    P: Rerunner + Sync,
>(
    rt: &R,
    alloc: Global,
    listener: &mut Li,
    store: &Store<K, G, N>,
    pass: &mut Pass<K, N>,
    sessions: u32,
    reruns: &P,
) -> Result<Tally, AllocError>
    ensures learns { Learns pass.old pass.new }
    ensures served { IfOk result (ServedSince (sides Li.Link.Source Li.Link.Sink)
        N.lock.first pass.old pass.new sessions
        (gatherings Li.Listener listener.old listener.new)) }
    ensures ended { OnOk result (AreEnded Li.Link.ended
        (Li.given_back listener.old) (Li.given_back listener.new)) }
{
    let lines = SessionLines { reruns };
    let serving = Serving {
        store,
        sessions,
        way: &lines,
    };
    serve_links(rt, alloc, listener, pass, &serving)
}

/// Accepts and runs the sessions in a scope. The scope's closure gives back the `&mut`s that it was given, since what it writes
/// through those that it only borrows isn't known.
fn run_scoped<
    Li: Listener,
    K: Keep + Send,
    G: Gate + Drop + Send + Sync,
    N: Naming + Send + Sync,
    S: Serves + Sync,
    R: Threads + Wait + Sync,
>(
    rt: &R,
    alloc: Global,
    listener: &mut Li,
    pass: &mut Pass<K, N>,
    serving: &Serving<'_, K, G, N, S>,
) -> Result<(Vec<Ended<Li::Link, K, N, S>>, bool), AllocError>
    ensures learns { Learns pass.old pass.new }
    ensures given { Li.given_back listener.new ≡ Li.given_back listener.old }
    ensures accepted { IfOk result (λ r. AcceptingSince N.lock.first pass.old pass.new serving.now.sessions
        (gatherings Li.Listener listener.old listener.new) (map seat_of r.0.items) r.1) }
    ensures near { IfOk result (λ r. All (IsNear pass.new) r.0.items) }
{
    let Serving {
        store,
        sessions,
        way,
    } = *serving;
    let (ran, listener, _pass) = thread::scope(
        thread::scope_env(),
        rt,
        move |scope|
            ensures same_listener { result.1.ghost_name ≡ listener.entry.ghost_name }
            ensures same_pass { result.2.ghost_name ≡ pass.entry.ghost_name }
            ensures learns { Learns pass.entry.now result.2.now }
            ensures given { Li.given_back result.1.now ≡ Li.given_back listener.entry.now }
            ensures accepted { IfOk result.0 (λ r. AcceptingSince N.lock.first
                pass.entry.now result.2.now sessions
                (gatherings Li.Listener listener.entry.now result.1.now) (map seat_of r.0.items) r.1) }
            ensures near { IfOk result.0 (λ r. All (IsNear result.2.now) r.0.items) }
        {
            let shared = Shared {
                rt,
                alloc,
                store,
                way,
            };
            let ran = run_all(scope, &shared, listener, pass, sessions);
            (ran, listener, pass)
        },
    );
    leave(listener);
    ran
}

/// Changes nothing. A `&mut` that comes out of a scope is passed on once, so that its last value is known.
fn leave<T>(value: &mut T)
    ensures { value.new ≡ value.old }
{
    let _ = value;
}

/// Accepts and runs the sessions, and joins them. Behind the last one that is accepted the listener is closed.
fn run_all<
    's,
    'e: 's,
    Li: Listener + 'e,
    K: Keep + Send + 'e,
    G: Gate + Drop + Send + Sync,
    N: Naming + Send + Sync + 'e,
    S: Serves + Sync + 'e,
    R: Threads + Wait + Sync,
>(
    scope: &'s Scope<'s, &'e ()>,
    shared: &Shared<'e, K, G, N, S, R>,
    listener: &mut Li,
    pass: &mut Pass<K, N>,
    sessions: u32,
) -> Result<(Vec<Ended<Li::Link, K, N, S>>, bool), AllocError>
    ensures learns { Learns pass.old pass.new }
    ensures given { Li.given_back listener.new ≡ Li.given_back listener.old }
    ensures accepted { IfOk result (λ r. AcceptingSince N.lock.first pass.old pass.new sessions
        (gatherings Li.Listener listener.old listener.new) (map seat_of r.0.items) r.1) }
    ensures near { IfOk result (λ r. All (IsNear pass.new) r.0.items) }
{
    let accepted = accept_all(scope, shared, listener, pass, sessions);
    listener.close();
    let (begun, failed) = accepted?;
    Ok((join_all(shared, pass, begun)?, failed))
}

/// Accepts up to so many links, and begins a session of each. There is memory for all of them before the first is accepted, so none
/// is lost.
fn accept_all<
    's,
    'e: 's,
    Li: Listener + 'e,
    K: Keep + Send + 'e,
    G: Gate + Drop + Send + Sync,
    N: Naming + Send + Sync + 'e,
    S: Serves + Sync + 'e,
    R: Threads + Wait + Sync,
>(
    scope: &'s Scope<'s, &'e ()>,
    shared: &Shared<'e, K, G, N, S, R>,
    listener: &mut Li,
    pass: &mut Pass<K, N>,
    sessions: u32,
) -> Result<(Vec<Begun<Li::Link, K, N, S>>, bool), AllocError>
    ensures learns { Learns pass.old pass.new }
    ensures given { Li.given_back listener.new ≡ Li.given_back listener.old }
    ensures accepted { IfOk result (λ r. AcceptingSince N.lock.first pass.old pass.new sessions
        (gatherings Li.Listener listener.old listener.new) r.0.items r.1) }
{
    let _seen = pass.seen();
    let mut begun = Vec::with_capacity(shared.alloc, sessions as usize)?;
    for _turn in 0..sessions {
        begun.reserve(1)?;
        match listener.accept() {
            Accepted::Link(link) => {
                begun.push_reserved(begin_next(scope, shared, pass, link));
            }
            Accepted::NoMore => return Ok((begun, false)),
            Accepted::Failed => return Ok((begun, true)),
        }
    }
    Ok((begun, false))
}

/// Begins the session of a link, with a client of its own.
fn begin_next<
    's,
    'e: 's,
    L: End + Send + Drop + 'e,
    K: Keep + Send + 'e,
    G: Gate + Drop + Send + Sync,
    N: Naming + Send + Sync + 'e,
    S: Serves + Sync + 'e,
    R: Threads + Wait + Sync,
>(
    scope: &'s Scope<'s, &'e ()>,
    shared: &Shared<'e, K, G, N, S, R>,
    pass: &mut Pass<K, N>,
    link: L,
) -> Begun<L, K, N, S>
    ensures learns { Learns pass.old pass.new }
    ensures link { link_in result ≡ link }
    ensures joined { JoinsSince N.lock.first pass.old pass.new (joined_in result) }
{
    match shared.store.join(pass) {
        Ok(joined) => begin(scope, shared, link, joined),
        Err(error) => Begun::unread(link, error),
    }
}

/// Joins each session, and the pass learns what its client knows.
fn join_all<L: End + Drop, K: Keep, G: Gate + Drop, N: Naming, S: Serves, R: Threads>(
    shared: &Shared<'_, K, G, N, S, R>,
    pass: &mut Pass<K, N>,
    begun: Vec<Begun<L, K, N, S>>,
) -> Result<Vec<Ended<L, K, N, S>>, AllocError>
    ensures learns { Learns pass.old pass.new }
    ensures seats { IfOk result (λ ended. map seat_of ended.items ≡ begun.items) }
    ensures near { IfOk result (λ ended. All (IsNear pass.new) ended.items) }
{
    let _seen = pass.seen();
    let mut all = Vec::with_capacity(shared.alloc, begun.len())?;
    for session in begun {
        let mut ended = session.join(shared.rt);
        ended.lend(shared.store, pass);
        all.push(ended)?;
    }
    Ok(all)
}

/// Each client meets what the pass knows and leaves, and its link is given back. It answers how many statuses aren't 0.
fn give_all<Li: Listener, K: Keep, G: Gate + Drop, N: Naming, S: Serves, R: Wait>(
    rt: &R,
    listener: &mut Li,
    store: &Store<K, G, N>,
    pass: &mut Pass<K, N>,
    all: Vec<Ended<Li::Link, K, N, S>>,
) -> Result<u32, AllocError>
    requires few { length all.items < 2 ^ 32 }
    requires near { All (IsNear pass.old) all.items }
    ensures same { pass.new ≡ pass.old }
    ensures links { Li.links listener.new ≡ Li.links listener.old }
    ensures count { Li.accept_faults listener.new ≡ Li.accept_faults listener.old }
    ensures settled { IfOk result (λ faulted. Settling S.promised (sides Li.Link.Source Li.Link.Sink) pass.old all.items []
        (Li.given_back listener.old) (Li.given_back listener.new) faulted) }
    ensures ended { OnOk result (AreEnded Li.Link.ended
        (Li.given_back listener.old) (Li.given_back listener.new)) }
{
    let mut faulted = 0;
    for ended in all {
        let (link, status) = ended.settled(rt, store, pass);
        listener.give_back(link, status)?;
        faulted = with_status(faulted, status);
    }
    Ok(faulted)
}

/// One more, where the status isn't 0.
fn with_status(faulted: u32, status: u8) -> u32
    requires { faulted < 2 ^ 32 - 1 }
    ensures { result ≡ faulted + (if status == WHOLE then 0 else 1) }
{
    if status == WHOLE {
        faulted
    } else {
        faulted + 1
    }
}
