//! What a client is answered while the keeper of another's commit waits, as for a disk.

ghost use Rattle.std.specs.Prelude.{◌≡◌, [], None};
ghost use Rattle.txn_lang.specs.Journals.{own};
ghost use Rattle.diamond_store.specs.Numbers.{from_in, HasSettings};
ghost use Rattle.diamond_store.specs.Passes.{known_of};
ghost use Rattle.session_core.specs.Holding.{Follows};

use diamond_store::{Book, Open, Pass, Served, Store, open};
use history_lock::{Naming, Opened};
use journal_core::{Keep, KeepFault};
use plain_data::Text;
use rdt_types::Settings;
use session_core::Session;
use std::alloc::{AllocError, Global};
use std::marker::Brand;
use std::process::Abort;
use std::sync::Wait;
use std::sync::atomic::{AtomicBool, Ordering};
use std::thread::{Threads, join, yield_now};
use store_talkers::{first_session, is_printed, say, turn_text};
use txn_lang::{Commit, CommitList};

/// How often one looks for a signal before he gives up.
const TURNS: u32 = 2_000_000;

/// How far the clients have come, and whether one waited in vain.
#[derive(Drop)]
struct Signals {
    reader_is_ready: AtomicBool,
    keeper_waits: AtomicBool,
    reader_is_done: AtomicBool,
    was_missed: AtomicBool,
}

impl Signals {
    fn new() -> Signals {
        Signals {
            reader_is_ready: AtomicBool::new(false),
            keeper_waits: AtomicBool::new(false),
            reader_is_done: AtomicBool::new(false),
            was_missed: AtomicBool::new(false),
        }
    }

    /// Waits for a signal, and tells if it doesn't come.
    fn await_signal(&self, signal: &AtomicBool) {
        for _ in 0..TURNS {
            if signal.load(Ordering::SeqCst) {
                return;
            }
            yield_now();
        }
        self.was_missed.store(true, Ordering::SeqCst);
    }
}

/// A keeper that keeps nothing, and at its third call waits until the reader is done.
#[derive(Drop)]
struct Slow<'s> {
    signals: &'s Signals,
    calls: u64,
}

impl Keep for Slow<'_> {
    ghost use Rattle.std.specs.Prelude.{None, true, []};

    ghost kept = { λ _. None };

    ghost keep_faults = { λ _. 0 };

    ghost home = { λ _. 0 };

    ghost may_fail = { true };

    ghost stands_for = { λ bytes _. bytes ≡ [] };

    fn make(&self, alloc: Global, _commit: &Commit) -> Result<Text, AllocError> {
        Ok(Text::new(alloc))
    }

    fn keep(&mut self, _bytes: &Text) -> Result<(), KeepFault> {
        self.calls = self.calls.saturating_add(1);
        if self.calls == 3 {
            let signals = self.signals;
            signals.keeper_waits.store(true, Ordering::SeqCst);
            signals.await_signal(&signals.reader_is_done);
        }
        Ok(())
    }

    fn keep_faults(&self) -> u64 {
        0
    }
}

/// The store over such a keeper, and a client's pass on it.
type SlowStore<'s, N> = Store<Slow<'s>, Open, N>;

type SlowPass<'s, N> = Pass<Slow<'s>, N>;

type SlowServed<'a, 's, N, R> = Served<'a, Slow<'s>, Open, N, R>;

/// A line, and what it is answered.
type Row = (&'static [u8], &'static [u8]);

/// The registry has the reader's watch behind two takes.
static BEFORE: [Row; 3] = [
    (b"watch w emit counter(\"x\").get();", b"run w 0 ok 0\n"),
    (b"sync", b"current 0\n"),
    (b"sync", b"current 0\n"),
];

/// While the third commit is kept there are two, which neither the registry nor a shard has followed.
static MEANWHILE: [Row; 6] = [
    (b"sync", b"run w 2 ok 2\ncurrent 2\n"),
    (b"look emit counter(\"x\").get();", b"at 2 ok 2\n"),
    (b"look emit counter(\"y\").get();", b"at 2 ok 0\n"),
    (b"at 1 emit counter(\"x\").get();", b"at 1 ok 1\n"),
    (b"watch v emit counter(\"y\").get();", b"run v 2 ok 0\n"),
    (b"sync", b"current 2\n"),
];

/// The third waits in the keeper.
static COMMITS: [Row; 3] = [
    (b"do counter(\"x\").add(1);", b"commit 1 ok\n"),
    (b"do counter(\"x\").add(1);", b"commit 2 ok\n"),
    (b"do counter(\"x\").add(1);", b"commit 3 ok\n"),
];

fn before() -> &'static [Row] {
    &BEFORE
}

fn meanwhile() -> &'static [Row] {
    &MEANWHILE
}

fn commits() -> &'static [Row] {
    &COMMITS
}

/// Whether each line is answered as it should be.
fn are_answered<N: Naming, R: Wait>(
    alloc: Global,
    session: &mut Session,
    served: &mut SlowServed<'_, '_, N, R>,
    rows: &[Row],
) -> bool
    requires { Follows (known_of served.old.pass) session.old }
    ensures { Follows (known_of served.new.pass) session.new }
{
    let mut all = true;
    for (line, reply) in rows {
        let turn = say(alloc, session, served, line);
        all = all && is_printed(&turn_text(alloc, &turn), reply);
    }
    all
}

/// A client commits, once the reader is ready.
fn write<'s, N: Naming, R: Wait>(
    rt: &R,
    alloc: Global,
    store: &SlowStore<'s, N>,
    pass: SlowPass<'s, N>,
    signals: &Signals,
) -> bool
    requires { own pass.client pass.journal ≡ [] }
{
    signals.await_signal(&signals.reader_is_ready);
    let mut served = Served { store, pass, rt };
    let mut session = first_session(alloc, &served);
    are_answered(alloc, &mut session, &mut served, commits())
}

/// Another reads, watches and looks, at first and then while the third commit is kept.
fn read<'s, N: Naming, R: Wait>(
    rt: &R,
    alloc: Global,
    store: &SlowStore<'s, N>,
    pass: SlowPass<'s, N>,
    signals: &Signals,
) -> bool
    requires { own pass.client pass.journal ≡ [] }
{
    let mut served = Served { store, pass, rt };
    let mut session = first_session(alloc, &served);
    let begun = are_answered(alloc, &mut session, &mut served, before());
    signals.reader_is_ready.store(true, Ordering::SeqCst);
    signals.await_signal(&signals.keeper_waits);
    let answered = are_answered(alloc, &mut session, &mut served, meanwhile());
    signals.reader_is_done.store(true, Ordering::SeqCst);
    begun && answered
}

/// Both, each in a thread of its own.
fn read_beside_a_commit<'s, N: Naming + Send + Sync, R: Threads + Wait + Abort + Sync>(
    rt: &R,
    alloc: Global,
    opened: Opened<Book<Slow<'s>>>,
    settings: &Settings,
    signals: &'s Signals,
)
    requires lock { opened.lock ≡ N.lock }
    requires settings { HasSettings opened.lock.origin settings.now }
    requires from { from_in opened.lock.origin ≡ opened.lock.base }
    requires author { opened.front.author ≡ None }
{
    let Ok((mut store, mut first)) = SlowStore::<'s, N>::new(alloc, settings, opened, Open) else {
        panic!(rt; "there is no memory for a store");
    };
    assert!(rt; store.begin_relay(rt, &mut first).is_ok());
    let (Ok(reader), Ok(writer)) = (store.join(&mut first), store.join(&mut first)) else {
        panic!(rt; "no client's number is left");
    };
    let (were_read, were_written) = join(
        rt,
        || read(rt, alloc, &store, reader, signals),
        || write(rt, alloc, &store, writer, signals),
    );
    assert!(rt; were_read);
    assert!(rt; were_written);
}

#[test]
fn nobody_who_reads_waits_for_a_keeper(rt: HostRuntime) {
    let settings = Settings::standard();
    let signals = Signals::new();
    let keeper = Slow {
        signals: &signals,
        calls: 0,
    };
    match open(rt.alloc(), &settings, keeper, CommitList::new(rt.alloc())) {
        Ok(opened) => {
            read_beside_a_commit::<Brand, _>(&rt, rt.alloc(), opened, &settings, &signals);
        }
        Err(_) => assert!(rt; false),
    }
    assert!(rt; !signals.was_missed.load(Ordering::SeqCst));
}
