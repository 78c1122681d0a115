//! A session over a store whose calls fail from one on: it ends there, at whatever call of whatever line that is, and nothing
//! more is asked. How many calls a line makes is worked out from its program (`specs/Verbs` of session_core, `specs/Lines` of
//! client_watches).

ghost use Rattle.std.specs.Prelude.{◌≡◌, None};
ghost use Rattle.diamond_store.specs.Numbers.{from_in, HasSettings};

use crate::backends::broken::Broken;
use diamond_store::{Book, Open, Served, open};
use docc_prepare::Backend;
use history_lock::{Naming, Opened};
use journal_core::MemKeep;
use rdt_types::Settings;
use session_core::{Session, SessionError, Turn};
use std::alloc::Global;
use std::marker::{Brand, Model};
use std::sync::Wait;
use store_talkers::{Founder, Newcomer, TestStore, first_session, is_printed, say, turn_text};
use txn_lang::CommitList;

/// A line, how many calls it makes, how many commits there are behind it, and its replies.
type Row = (&'static [u8], u64, u64, &'static [u8]);

static ROWS: [Row; 11] = [
    (
        br#"begin emit counter("x").get(); counter("x").add(1);"#,
        1,
        0,
        b"seen 0\n",
    ),
    (b"step", 1, 0, b"read counter(\"x\") base 0\n"),
    (b"step", 1, 0, b"prepare 1 front 0\n"),
    (b"step", 1, 1, b"commit 1 ok 0\n"),
    // A refresh, a read, a preparing and an append.
    (
        br#"do counter("x").put(counter("x").get() + 1);"#,
        4,
        2,
        b"commit 2 ok\n",
    ),
    // A refresh, and a read at a number.
    (br#"look emit counter("x").get();"#, 2, 2, b"at 2 ok 2\n"),
    // What changed is taken, and the value is read and subscribed to.
    (
        br#"watch w emit counter("x").get();"#,
        3,
        2,
        b"run w 2 ok 2\n",
    ),
    // A refresh and an append, since nothing is observed.
    (br#"do counter("x").add(1);"#, 2, 3, b"commit 3 ok\n"),
    (b"sync", 1, 3, b"run w 3 ok 3\ncurrent 3\n"),
    (b"unwatch w", 1, 3, b"dropped\n"),
    (b"seen", 0, 3, b"seen 3\n"),
];

/// How many calls all lines make.
const ALL_CALLS: u64 = 17;

/// The rows, so that the proof of a test doesn't go through them.
fn rows() -> &'static [Row] {
    &ROWS
}

/// A client of such a store, with its session, whose next line may always follow.
#[derive(Drop)]
struct Interrupted<'a, N: Naming, R: Wait> {
    backend: Broken<'a, N, R>,
    session: Session,
}

impl<'a, N: Naming, R: Wait> Model for Interrupted<'a, N, R> {
    ghost use Rattle.std.specs.Prelude.{ℕ};
    ghost use Rattle.std.specs.Coded.{coded_ℕ};
    ghost use Rattle.session_core.specs.Holding.{Follows};
    ghost use Rattle.thread_tests.specs.Faults.{failing};

    ghost Value = { ℕ };

    ghost coded = { coded_ℕ };

    ghost view = { λ i. i.session.client };

    ghost invariant = { λ i. Follows (failing i.backend.served.pass i.backend.faults) i.session };
}

impl<'a, N: Naming, R: Wait> Interrupted<'a, N, R> {
    /// A client of whose calls so many are answered.
    fn new(
        rt: &'a R,
        alloc: Global,
        store: &'a TestStore<N>,
        newcomer: Newcomer<N>,
        left: u64,
    ) -> Interrupted<'a, N, R> {
        let pass = newcomer.into_pass();
        let served = Served { store, pass, rt };
        let session = first_session(alloc, &served);
        let backend = Broken::new(served, left);
        Interrupted { backend, session }
    }

    /// Says a line.
    fn say(&mut self, alloc: Global, line: &[u8]) -> Result<Turn, SessionError> {
        say(alloc, &mut self.session, &mut self.backend, line)
    }

    /// Whether so many calls have failed, and the journal has so many commits.
    fn has_left(self, faults: u64, commits: u64) -> bool {
        let Interrupted { backend, .. } = self;
        let counted = backend.store_faults() == faults;
        let Broken { mut served, .. } = backend;
        counted && matches!(served.refresh(), Ok(number) if number == commits)
    }
}

/// Whether a line is answered by a fault of the store.
fn has_failed(turn: &Result<Turn, SessionError>) -> bool {
    matches!(turn, Err(SessionError::StoreFault))
}

/// Whether the lines are answered up to the first that makes more calls than are left, and that and each line behind it by the
/// same fault, which is one. What the answered lines committed stands, and nothing else.
fn ends_at<N: Naming, R: Wait>(
    alloc: Global,
    mut client: Interrupted<'_, N, R>,
    left: u64,
) -> bool {
    let mut calls: u64 = 0;
    let mut commits = 0;
    for (line, more, behind, replies) in rows() {
        calls = calls.saturating_add(*more);
        let turn = client.say(alloc, line);
        let is_right = if calls <= left {
            commits = *behind;
            is_printed(&turn_text(alloc, &turn), replies)
        } else {
            has_failed(&turn)
        };
        if !is_right {
            return false;
        }
    }
    client.has_left(u64::from(left < ALL_CALLS), commits)
}

/// The same of a new client of a store.
fn ends_on<N: Naming, R: Wait>(
    rt: &R,
    alloc: Global,
    store: &TestStore<N>,
    mut first: Founder<N>,
    left: u64,
) -> bool {
    let Some(newcomer) = first.join(store) else {
        return false;
    };
    let client = Interrupted::new(rt, alloc, store, newcomer, left);
    ends_at(alloc, client, left)
}

/// The same on a store of its own.
fn ends_in<N: Naming, R: Wait>(
    rt: &R,
    alloc: Global,
    opened: Opened<Book<MemKeep>>,
    settings: &Settings,
    left: u64,
) -> bool
    requires lock { opened.lock ≡ N.lock }
    requires settings { HasSettings opened.lock.origin settings.now }
    requires from { from_in opened.lock.origin ≡ opened.lock.base }
    requires author { opened.front.author ≡ None }
{
    match TestStore::<N>::new(alloc, settings, opened, Open) {
        Ok((store, first)) => ends_on(rt, alloc, &store, Founder::new(first), left),
        Err(_) => false,
    }
}

/// The same on a new store.
fn ends_anew<R: Wait>(rt: &R, alloc: Global, left: u64) -> bool {
    let settings = Settings::standard();
    match open(alloc, &settings, MemKeep, CommitList::new(alloc)) {
        Ok(opened) => ends_in::<Brand, _>(rt, alloc, opened, &settings, left),
        Err(_) => false,
    }
}

#[test]
fn a_session_ends_where_its_store_fails(rt: HostRuntime) {
    for left in 0..ALL_CALLS.saturating_add(1) {
        assert!(rt; ends_anew(&rt, rt.alloc(), left), "{left} calls");
    }
}
