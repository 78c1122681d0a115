//! A session that was begun: it runs in a thread, or has ended.

ghost use Rattle.std.specs.Prelude.{◌≡◌, Ok, Err};
ghost use Rattle.diamond_server.specs.Accounts.{seat, seat_of, IsNewcomer};

use crate::ended::{Ended, serve};
use crate::shared::Shared;
use crate::ways::Serves;
use diamond_store::{Gate, JoinError, Pass};
use dio_core::End;
use history_lock::Naming;
use journal_core::Keep;
use std::marker::{Model, PhantomData};
use std::snapshot::Snapshot;
use std::sync::Wait;
use std::thread::{Promise, PromisedHandle, Scope, Threads};

/// What a thread promises: to serve the session of this pass over this link, in this way, and to end the link.
#[derive(Drop)]
struct ToServe<L, K: Keep, N: Naming, S> {
    link: Snapshot<L>,
    pass: Snapshot<Pass<K, N>>,
    way: PhantomData<S>,
}

impl<L: End, K: Keep, N: Naming, S: Serves> Promise<(L, Pass<K, N>, u8)> for ToServe<L, K, N, S> {
    ghost use Rattle.std.specs.Prelude.{Ok, IfSome, IsTrue};
    ghost use Rattle.diamond_server.specs.Accounts.{IsTold};
    ghost use Rattle.diamond_server.specs.Promises.{sides};

    ghost kept_by = { λ p r. IsTold S.promised (λ q. q) (sides L.Source L.Sink p.link.value)
        (sides L.Source L.Sink r.0) r.2 (Ok (p.pass.value, r.1)) × IfSome (L.ended r.0) IsTrue };
}

/// A session in a thread.
#[derive(Drop)]
struct Running<L: End, K: Keep, N: Naming, S: Serves> {
    was: Snapshot<L>,
    had: Snapshot<Pass<K, N>>,
    handle: PromisedHandle<(L, Pass<K, N>, u8), ToServe<L, K, N, S>>,
    ghost link: { handle.promise.link.value ≡ was.value },
    ghost pass: { handle.promise.pass.value ≡ had.value },
}

/// The pass of a client as it joined.
#[derive(Drop)]
struct Joined<K: Keep, N: Naming> {
    pass: Snapshot<Pass<K, N>>,
}

impl<K: Keep, N: Naming> Model for Joined<K, N> {
    ghost use Rattle.std.specs.Coded.{codes};
    ghost use Rattle.txn_lang.specs.contracts.commit.Commit as commit;
    ghost use Rattle.rdt_types.specs.contracts.address.Address as address;
    ghost use Rattle.diamond_store.specs.Passes.{Passed, passed_code};

    ghost Value = { Passed };

    ghost coded = { Prim.hlevel (codes, passed_code commit.the_row.coded address.the_row.coded) };

    ghost view = { λ j. j.pass.value };

    ghost invariant = { λ j. Unit {0} };
}

/// A session that was begun. Contracts see the link as it was accepted, and the pass of its client, or why none joined.
#[derive(Drop)]
pub(crate) struct Begun<L: End, K: Keep, N: Naming, S: Serves> {
    was: Snapshot<L>,
    joined: Result<Joined<K, N>, JoinError>,
    run: Result<Running<L, K, N, S>, Ended<L, K, N, S>>,
}

impl<L: End, K: Keep, N: Naming, S: Serves> Model for Begun<L, K, N, S> {
    ghost use Rattle.std.specs.Prelude.{◌≡◌, Ok, MatchResult};
    ghost use Rattle.std.specs.Coded.{codes};
    ghost use Rattle.txn_lang.specs.contracts.commit.Commit as commit;
    ghost use Rattle.rdt_types.specs.contracts.address.Address as address;
    ghost use Rattle.diamond_store.specs.Passes.{passed_code};
    ghost use Rattle.diamond_server.specs.Accounts.{Seat, seat, seat_of};

    ghost Value = { Seat L };

    ghost coded = { Prim.hlevel (codes, passed_code commit.the_row.coded address.the_row.coded) };

    ghost view = { λ s. seat s.was.value s.joined };

    ghost invariant = { λ s. MatchResult s.run (λ running. seat running.was.value (Ok running.had.value) ≡ seat s.was.value s.joined)
        (λ ended. seat_of ended ≡ seat s.was.value s.joined) };
}

/// Begins the session of a pass over a link in a thread of the scope. Where no thread can be started, the session is served here,
/// and has ended when this returns. (The thread's closure holds what is shared part by part: what a closure answers isn't known where
/// it holds a type with a lifetime.)
pub(crate) fn begin<
    's,
    'e: 's,
    L: End + Send + Drop + 'e,
    K: Keep + Send + 'e,
    G: Gate + Drop + Send + Sync,
    N: Naming + Send + Sync + 'e,
    S: Serves + Sync + 'e,
    R: Threads + Wait + Sync,
>(
    scope: &'s Scope<'s, &'e ()>,
    shared: &Shared<'e, K, G, N, S, R>,
    link: L,
    pass: Pass<K, N>,
) -> Begun<L, K, N, S>
    requires newcomer { IsNewcomer pass }
    ensures { result ≡ seat link (Ok pass) }
{
    let (link_was, pass_was) = (Snapshot::of(&link), Snapshot::of(&pass));
    let (was, had) = (Snapshot::of(&link), Snapshot::of(&pass));
    let promise = ToServe {
        link: Snapshot::of(&link),
        pass: Snapshot::of(&pass),
        way: PhantomData,
    };
    let Shared {
        rt,
        alloc,
        store,
        way,
    } = *shared;
    let run = match scope.spawn_with(promise, move || {
        let shared = Shared {
            rt,
            alloc,
            store,
            way,
        };
        serve(&shared, link, pass)
    }) {
        Ok(handle) => Ok(Running { was, had, handle }),
        Err(refused) => Err(Ended::served(was, had, (refused.value)())),
    };
    Begun {
        was: link_was,
        joined: Ok(Joined { pass: pass_was }),
        run,
    }
}

impl<L: End + Drop, K: Keep, N: Naming, S: Serves> Begun<L, K, N, S> {
    /// The session of a link that isn't read, since no client joined for it.
    pub(crate) fn unread(link: L, error: JoinError) -> Begun<L, K, N, S>
        ensures { result ≡ seat link (Err error) }
    {
        Begun {
            was: Snapshot::of(&link),
            joined: Err(error),
            run: Err(Ended::unread(link, error)),
        }
    }

    /// The session once it has ended.
    pub(crate) fn join<R: Threads>(self, rt: &R) -> Ended<L, K, N, S>
        ensures { seat_of result ≡ self }
    {
        let Begun { run, .. } = self;
        match run {
            Ok(running) => {
                let Running { was, had, handle } = running;
                Ended::served(was, had, handle.join(rt))
            }
            Err(ended) => ended,
        }
    }
}
