//! A watch of one client on a store, beside what another client commits there.

ghost use Rattle.std.specs.Prelude.{◌≡◌, None};
ghost use Rattle.diamond_store.specs.Numbers.{from_in, HasSettings};

use crate::meeting::new_client;
use diamond_store::{Book, Open, open};
use history_lock::{Naming, Opened};
use journal_core::MemKeep;
use rdt_types::Settings;
use std::alloc::Global;
use std::marker::Brand;
use std::process::Abort;
use std::sync::Wait;
use store_talkers::{Founder, Talker, TestStore, is_printed, turn_text};
use txn_lang::CommitList;

/// Who says a line.
#[derive(Clone, Copy)]
enum Who {
    Watcher,
    Writer,
}

/// A line, and what it is answered.
type Row = (Who, &'static [u8], &'static [u8]);

/// The watch is reported where a commit touched what it read, and not where one wrote beside that, whether the journal has its
/// feeds or, behind two takes, the registry. The wait finds a commit.
static ROWS: [Row; 9] = [
    (
        Who::Watcher,
        br#"watch w emit hash("h").get("f");"#,
        b"run w 0 ok \"\"\n",
    ),
    (
        Who::Writer,
        br#"do hash("h").put("g", "v");"#,
        b"commit 1 ok\n",
    ),
    (Who::Watcher, b"sync", b"current 1\n"),
    (
        Who::Writer,
        br#"do hash("h").put("f", "u");"#,
        b"commit 2 ok\n",
    ),
    (Who::Watcher, b"wait", b"run w 2 ok \"u\"\ncurrent 2\n"),
    (Who::Watcher, b"sync", b"current 2\n"),
    (
        Who::Writer,
        br#"do hash("h").remove("g"); hash("h").put("f", "t");"#,
        b"commit 3 ok\n",
    ),
    (Who::Watcher, b"sync", b"run w 3 ok \"t\"\ncurrent 3\n"),
    (Who::Watcher, b"unwatch w", b"dropped\n"),
];

/// The rows, so that the proof of a test doesn't go through them.
fn rows() -> &'static [Row] {
    &ROWS
}

/// Whether a client that says a line is answered so.
fn is_answered<N: Naming, R: Wait>(
    alloc: Global,
    talker: &mut Talker<'_, N, R>,
    line: &[u8],
    reply: &[u8],
) -> bool {
    let turn = talker.say(alloc, line);
    is_printed(&turn_text(alloc, &turn), reply)
}

/// How many lines of two clients, said in turn, are answered as they should be.
fn both_say<N: Naming, R: Wait>(
    alloc: Global,
    watcher: &mut Talker<'_, N, R>,
    writer: &mut Talker<'_, N, R>,
) -> usize {
    for (number, (who, line, reply)) in rows().iter().enumerate() {
        let goes = match who {
            Who::Watcher => is_answered(alloc, watcher, line, reply),
            Who::Writer => is_answered(alloc, writer, line, reply),
        };
        if !goes {
            return number;
        }
    }
    rows().len()
}

/// The same on a store that is there. The watcher leaves then, and is in nobody's way.
fn watched_on<N: Naming, R: Wait + Abort>(
    rt: &R,
    alloc: Global,
    store: &TestStore<N>,
    mut first: Founder<N>,
) {
    let mut watcher = Talker::new(rt, alloc, store, new_client(rt, store, &mut first));
    let mut writer = Talker::new(rt, alloc, store, new_client(rt, store, &mut first));
    assert_eq!(rt; both_say(alloc, &mut watcher, &mut writer), 9);
    store.leave(rt, watcher.into_pass());
    let line = br#"do hash("h").put("f", "s");"#;
    assert!(rt; is_answered(alloc, &mut writer, line, b"commit 4 ok\n"));
}

/// The same on a store of its own.
fn watched<N: Naming, R: Wait + Abort>(
    rt: &R,
    alloc: Global,
    opened: Opened<Book<MemKeep>>,
    settings: &Settings,
)
    requires lock { opened.lock ≡ N.lock }
    requires settings { HasSettings opened.lock.origin settings.now }
    requires from { from_in opened.lock.origin ≡ opened.lock.base }
    requires author { opened.front.author ≡ None }
{
    match TestStore::<N>::new(alloc, settings, opened, Open) {
        Ok((store, first)) => watched_on(rt, alloc, &store, Founder::new(first)),
        Err(_) => assert!(rt; false),
    }
}

#[test]
fn a_watch_is_reported_where_another_client_touched_it(rt: HostRuntime) {
    let settings = Settings::standard();
    match open(rt.alloc(), &settings, MemKeep, CommitList::new(rt.alloc())) {
        Ok(opened) => watched::<Brand, _>(&rt, rt.alloc(), opened, &settings),
        Err(_) => assert!(rt; false),
    }
}
