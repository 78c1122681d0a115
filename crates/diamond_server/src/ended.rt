//! A link that is done with, and what is known of its session.

ghost use Rattle.std.specs.Prelude.{◌≡◌, ℕ, Ok, Err, IfSome, IsTrue};
ghost use Rattle.diamond_store.specs.Answers.{Learns};
ghost use Rattle.diamond_server.specs.Accounts.{seat, seat_of, given_of, unread, IsNewcomer, IsTold, IsServed};
ghost use Rattle.diamond_server.specs.Ways.{having_met};
ghost use Rattle.diamond_server.specs.Promises.{sides};
ghost use Rattle.diamond_server.specs.code.Settling.{IsNear, IsNearTalk};
ghost use Rattle.dio_core.specs.Links.{Both};

use crate::shared::Shared;
use crate::status::unread_status;
use crate::ways::Serves;
use diamond_store::{Gate, JoinError, Pass, Served, Store};
use dio_core::End;
use history_lock::Naming;
use journal_core::Keep;
use std::marker::{Model, PhantomData};
use std::snapshot::Snapshot;
use std::sync::Wait;

/// A client's pass as it joined, and as its session left it.
#[derive(Drop)]
pub(crate) struct Talk<K: Keep, N: Naming> {
    had: Snapshot<Pass<K, N>>,
    pass: Pass<K, N>,
}

impl<K: Keep, N: Naming> Model for Talk<K, N> {
    ghost use Rattle.std.specs.Coded.{codes};
    ghost use Rattle.txn_lang.specs.contracts.commit.Commit as commit;
    ghost use Rattle.rdt_types.specs.contracts.address.Address as address;
    ghost use Rattle.diamond_store.specs.Passes.{Passed, passed_code};

    ghost Value = { Passed × Passed };

    ghost coded = { Prim.hlevel (codes, passed_code commit.the_row.coded address.the_row.coded) };

    ghost view = { λ t. (t.had.value, t.pass) };

    ghost invariant = { λ t. Unit {0} };
}

/// A link that is done with, its status, and the pass of its client, or why none joined. Contracts see it as an `Account`, and its
/// invariant is what is told of the link, and that it is ended.
#[derive(Drop)]
pub(crate) struct Ended<L: End, K: Keep, N: Naming, S: Serves> {
    was: Snapshot<L>,
    link: L,
    status: u8,
    talk: Result<Talk<K, N>, JoinError>,
    way: PhantomData<S>,
}

impl<L: End, K: Keep, N: Naming, S: Serves> Model for Ended<L, K, N, S> {
    ghost use Rattle.std.specs.Prelude.{IfSome, IsTrue};
    ghost use Rattle.std.specs.Coded.{codes};
    ghost use Rattle.txn_lang.specs.contracts.commit.Commit as commit;
    ghost use Rattle.rdt_types.specs.contracts.address.Address as address;
    ghost use Rattle.diamond_store.specs.Passes.{passed_code};
    ghost use Rattle.diamond_server.specs.Accounts.{Account, IsEnded};
    ghost use Rattle.diamond_server.specs.Promises.{sides};

    ghost Value = { Account L };

    ghost coded = { Prim.hlevel (codes, passed_code commit.the_row.coded address.the_row.coded) };

    ghost view = { λ e. record { was = e.was.value; link = e.link; status = e.status; talk = e.talk } };

    ghost invariant = { λ e. IsEnded S.promised (sides L.Source L.Sink)
        (record { was = e.was.value; link = e.link; status = e.status; talk = e.talk })
        × IfSome (L.ended e.link) IsTrue };
}

/// Serves the link of a new client in this way, and ends the link.
pub(crate) fn serve<L: End, K: Keep, G: Gate + Drop, N: Naming, S: Serves, R: Wait>(
    shared: &Shared<'_, K, G, N, S, R>,
    mut link: L,
    pass: Pass<K, N>,
) -> (L, Pass<K, N>, u8)
    requires newcomer { IsNewcomer pass }
    ensures told { IsTold S.promised (λ p. p) (sides L.Source L.Sink link)
        (sides L.Source L.Sink result.0) result.2 (Ok (pass, result.1)) }
    ensures ended { IfSome (L.ended result.0) IsTrue }
{
    let mut served = Served {
        store: shared.store,
        pass,
        rt: shared.rt,
    };
    let status = shared.way.serve(shared.alloc, &mut served, &mut link);
    let Served { pass, .. } = served;
    (closed(link), pass, status)
}

/// The link, ended. It tells what it told.
fn closed<L: End>(mut link: L) -> L
    ensures ended { IfSome (L.ended result) IsTrue }
    ensures same { sides L.Source L.Sink result ≡ sides L.Source L.Sink link }
{
    link.end();
    link
}

impl<L: End, K: Keep, N: Naming, S: Serves> Ended<L, K, N, S> {
    /// A link that was served so.
    pub(crate) fn served(
        was: Snapshot<L>,
        had: Snapshot<Pass<K, N>>,
        done: (L, Pass<K, N>, u8),
    ) -> Ended<L, K, N, S>
        requires told { IsTold S.promised (λ p. p) (sides L.Source L.Sink was.value)
            (sides L.Source L.Sink done.0) done.2 (Ok (had.value, done.1)) }
        requires ended { IfSome (L.ended done.0) IsTrue }
        ensures seat { seat_of result ≡ seat was.value (Ok had.value) }
    {
        let (link, pass, status) = done;
        Ended {
            was,
            link,
            status,
            talk: Ok(Talk { had, pass }),
            way: PhantomData,
        }
    }

    /// A link that isn't read, since no client joined for it. It is ended.
    pub(crate) fn unread(link: L, error: JoinError) -> Ended<L, K, N, S>
        ensures seat { seat_of result ≡ seat link (Err error) }
    {
        let was = Snapshot::of(&link);
        Ended {
            was,
            link: closed(link),
            status: unread_status(error),
            talk: Err(error),
            way: PhantomData,
        }
    }

    /// The pass learns what the client knows.
    pub(crate) fn lend<G: Gate + Drop>(&mut self, store: &Store<K, G, N>, pass: &mut Pass<K, N>)
        ensures same { self.new ≡ self.old }
        ensures learns { Learns pass.old pass.new }
        ensures near { IsNear pass.new self.new }
    {
        let _seen = pass.seen();
        if let Ok(talk) = &mut self.talk {
            let token = store.split(&mut talk.pass);
            store.meet(pass, token);
        }
    }

    /// The link and its status. The client has met what the pass knows, so that explains its session, and has left.
    pub(crate) fn settled<G: Gate + Drop, R: Wait>(
        self,
        rt: &R,
        store: &Store<K, G, N>,
        pass: &mut Pass<K, N>,
    ) -> (L, u8)
        requires near { IsNear pass.old self }
        ensures same { pass.new ≡ pass.old }
        ensures given { result ≡ given_of self }
        ensures served { IsServed S.promised (sides L.Source L.Sink) pass.old self }
        ensures ended { IfSome (L.ended result.0) IsTrue }
    {
        let Ended {
            was: _,
            link,
            status,
            talk,
            way,
        } = self;
        settle(rt, talk, store, pass, way);
        (link, status)
    }
}

/// The client, if one joined, meets what the pass knows, and leaves.
fn settle<K: Keep, G: Gate + Drop, N: Naming, S: Serves, R: Wait>(
    rt: &R,
    talk: Result<Talk<K, N>, JoinError>,
    store: &Store<K, G, N>,
    pass: &mut Pass<K, N>,
    way: PhantomData<S>,
)
    requires near { IsNearTalk pass.old talk }
    ensures same { pass.new ≡ pass.old }
    ensures told { (x y : Both) (status : ℕ) → IsTold S.promised (λ p. p) x y status talk
        → IsTold S.promised (having_met pass.old) x y status talk }
{
    if let Ok(talk) = talk {
        talk.settle(rt, store, pass, way);
    }
}

impl<K: Keep, N: Naming> Talk<K, N> {
    /// The client meets what the pass knows, and leaves.
    fn settle<G: Gate + Drop, S: Serves, R: Wait>(
        self,
        rt: &R,
        store: &Store<K, G, N>,
        pass: &mut Pass<K, N>,
        _way: PhantomData<S>,
    )
        requires near { IsNearTalk pass.old (Ok self) }
        ensures same { pass.new ≡ pass.old }
        ensures told { (x y : Both) (status : ℕ) → IsTold S.promised (λ p. p) x y status (Ok self)
            → IsTold S.promised (having_met pass.old) x y status (Ok self) }
    {
        S::stays_promised();
        let Talk {
            had: _,
            pass: mut own,
        } = self;
        let token = store.split(pass);
        store.meet(&mut own, token);
        store.leave(rt, own);
    }
}
