//! A client that says lines to a store.

ghost use Rattle.std.specs.Prelude.{◌≡◌, []};
ghost use Rattle.txn_lang.specs.Journals.{own};
ghost use Rattle.docc_prepare.specs.Readable.{IsNew};
ghost use Rattle.session_core.specs.Holding.{Follows};

use diamond_store::{Open, Pass, Served, Store};
use dio_core::LONGEST_LINE;
use docc_prepare::Backend;
use history_lock::Naming;
use journal_core::MemKeep;
use session_core::{Session, SessionError, Turn};
use std::alloc::Global;
use std::marker::Model;
use std::sync::Wait;

/// The store of a test: it keeps nothing, and holds nobody up.
pub type TestStore<N> = Store<MemKeep, Open, N>;

/// A client's pass on it.
pub type TestPass<N> = Pass<MemKeep, N>;

/// Does a line. One that is too long is passed over.
pub fn say<B: Backend>(
    alloc: Global,
    session: &mut Session,
    backend: &mut B,
    line: &[u8],
) -> Result<Turn, SessionError>
    requires { Follows (B.known backend.old) session.old }
    ensures { Follows (B.known backend.new) session.new }
{
    if line.len() > LONGEST_LINE {
        return Ok(Turn::Quiet);
    }
    session.line(alloc, backend, line)
}

/// The first session of a backend's client, which has no commit yet.
pub fn first_session<B: Backend>(alloc: Global, backend: &B) -> Session
    requires { IsNew (B.known backend.now) }
    ensures { Follows (B.known backend.now) result }
{
    let _shards = backend.shards();
    Session::new(alloc, backend.client(), backend.seen())
}

/// The pass of a client that has no commit yet. It can go to another thread, where its session is made.
#[derive(Drop)]
pub struct Newcomer<N: Naming> {
    pass: TestPass<N>,
}

impl<N: Naming> Model for Newcomer<N> {
    ghost use Rattle.std.specs.Prelude.{◌≡◌, ℕ, []};
    ghost use Rattle.std.specs.Coded.{coded_ℕ};
    ghost use Rattle.txn_lang.specs.Journals.{own};

    ghost Value = { ℕ };

    ghost coded = { coded_ℕ };

    ghost view = { λ n. n.pass.client };

    ghost invariant = { λ n. own n.pass.client n.pass.journal ≡ [] };
}

impl<N: Naming> Newcomer<N> {
    /// The client of a pass, which has no commit yet.
    pub fn new(pass: TestPass<N>) -> Newcomer<N>
        requires own_commits { own pass.client pass.journal ≡ [] }
    {
        Newcomer { pass }
    }

    /// The client's pass, of which it is still known that no commit is its own.
    pub fn into_pass(self) -> TestPass<N>
        ensures own_commits { own result.client result.journal ≡ [] }
    {
        let Newcomer { pass } = self;
        pass
    }
}

/// A client of a store, with its session, whose next line may always follow.
#[derive(Drop)]
pub struct Talker<'a, N: Naming, R: Wait> {
    served: Served<'a, MemKeep, Open, N, R>,
    session: Session,
}

impl<'a, N: Naming, R: Wait> Model for Talker<'a, N, R> {
    ghost use Rattle.std.specs.Prelude.{ℕ};
    ghost use Rattle.std.specs.Coded.{coded_ℕ};
    ghost use Rattle.diamond_store.specs.Passes.{known_of};
    ghost use Rattle.session_core.specs.Holding.{Follows};

    ghost Value = { ℕ };

    ghost coded = { coded_ℕ };

    ghost view = { λ t. t.session.client };

    ghost invariant = { λ t. Follows (known_of t.served.pass) t.session };
}

impl<'a, N: Naming, R: Wait> Talker<'a, N, R> {
    /// A client that has no commit yet.
    pub fn new(
        rt: &'a R,
        alloc: Global,
        store: &'a TestStore<N>,
        newcomer: Newcomer<N>,
    ) -> Talker<'a, N, R> {
        let pass = newcomer.into_pass();
        let served = Served { store, pass, rt };
        let session = first_session(alloc, &served);
        Talker { served, session }
    }

    /// The client's number.
    pub fn client(&self) -> u32
        ensures { result ≡ self.now }
    {
        self.session.client
    }

    /// Says a line. One that is too long is passed over.
    pub fn say(&mut self, alloc: Global, line: &[u8]) -> Result<Turn, SessionError> {
        say(alloc, &mut self.session, &mut self.served, line)
    }

    /// Says some lines, whatever they are answered.
    pub fn say_all(&mut self, alloc: Global, lines: &[&[u8]]) {
        for line in lines {
            let _ = self.say(alloc, line);
        }
    }

    /// The client's pass, which it has no more use for.
    pub fn into_pass(self) -> TestPass<N> {
        let Talker { served, .. } = self;
        let Served { pass, .. } = served;
        pass
    }
}
