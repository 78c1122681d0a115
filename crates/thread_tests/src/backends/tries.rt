//! Tries of a client over a store on which a rival is faster, as nobody can be between the events of a script's line.

ghost use Rattle.std.specs.Prelude.{◌≡◌, None};
ghost use Rattle.diamond_store.specs.Numbers.{from_in, HasSettings};
ghost use Rattle.diamond_store.specs.Passes.{known_of};
ghost use Rattle.session_core.specs.Holding.{Follows};

use crate::backends::rival::{Moment, Plan, Rival};
use diamond_store::{Book, Open, Served, open};
use history_lock::{Naming, Opened};
use journal_core::MemKeep;
use rdt_types::Settings;
use session_core::Session;
use std::alloc::Global;
use std::marker::Brand;
use std::sync::Wait;
use store_talkers::{Founder, Talker, TestStore, first_session, is_told, say};
use txn_lang::CommitList;

/// How large the store is.
#[derive(Clone, Copy)]
enum Size {
    Standard,
    WindowOfOne,
    JournalOfOne,
}

impl Size {
    fn settings(self) -> Settings {
        let (window, limit) = match self {
            Size::Standard => (4096, 100_000),
            Size::WindowOfOne => (1, 100_000),
            Size::JournalOfOne => (4096, 1),
        };
        Settings {
            shards: 4,
            window,
            limit,
        }
    }
}

/// A line of a client, what its rival does meanwhile, the reply, and how often the rival would still do so.
#[derive(Clone, Copy)]
struct Try {
    size: Size,
    plan: Plan,
    line: &'static [u8],
    reply: &'static [u8],
    left: u32,
}

/// Another client's commit comes in between: it raises the counter.
const RAISED: &[&[u8]] = &[br#"do counter("x").add(1);"#];

/// It does, and the counter's shard learns of it.
const RAISED_AND_SEEN: &[&[u8]] = &[
    br#"do counter("x").add(1);"#,
    br#"look emit counter("x").get();"#,
];

/// It raises another counter.
const OTHER_RAISED: &[&[u8]] = &[br#"do counter("y").add(1);"#];

/// It does so twice, and the shard of the first counter learns of it.
const OTHER_RAISED_AND_SEEN: &[&[u8]] = &[
    br#"do counter("y").add(1);"#,
    br#"do counter("y").add(1);"#,
    br#"look emit counter("x").get();"#,
];

/// It holds what it has read of the counter.
const HELD: &[&[u8]] = &[br#"do emit "hold"; emit counter("x").get();"#];

/// It raises the counter first.
const RAISED_AND_HELD: &[&[u8]] = &[
    br#"do counter("x").add(1);"#,
    br#"do emit "hold"; emit counter("x").get();"#,
];

/// It holds, and then commits what it held for.
const HELD_AND_PUT: &[&[u8]] = &[
    br#"do emit "hold"; emit counter("x").get();"#,
    br#"do counter("x").put(counter("x").get() + 1);"#,
];

/// A try while the rival raises the counter so many times, each time before an append: how often, the line, the reply, and how
/// often the rival would still do so.
type Overtaken = (u32, &'static [u8], &'static [u8], u32);

static OVERTAKEN: [Overtaken; 8] = [
    (
        0,
        br#"try 3 counter("x").put(counter("x").get() + 1); emit counter("x").get();"#,
        b"commit 1 ok 1",
        0,
    ),
    // It succeeds at the last time, by what it has then read.
    (
        2,
        br#"try 3 counter("x").put(counter("x").get() + 1); emit counter("x").get();"#,
        b"commit 3 ok 3",
        0,
    ),
    (
        15,
        br#"try 16 counter("x").put(counter("x").get() + 1); emit counter("x").get();"#,
        b"commit 16 ok 16",
        0,
    ),
    // It runs out, and its last abort is the answer.
    (
        1,
        br#"try 1 counter("x").put(counter("x").get() + 1);"#,
        br#"abort counter("x") whole base 0 clash add 1 commit 1"#,
        0,
    ),
    (
        3,
        br#"try 3 counter("x").put(counter("x").get() + 1);"#,
        br#"abort counter("x") whole base 2 clash add 1 commit 3"#,
        0,
    ),
    (
        5,
        br#"try 3 counter("x").put(counter("x").get() + 1);"#,
        br#"abort counter("x") whole base 2 clash add 1 commit 3"#,
        2,
    ),
    (
        17,
        br#"try 16 counter("x").put(counter("x").get() + 1);"#,
        br#"abort counter("x") whole base 15 clash add 1 commit 16"#,
        1,
    ),
    // `do` is one try.
    (
        2,
        br#"do counter("x").put(counter("x").get() + 1);"#,
        br#"abort counter("x") whole base 0 clash add 1 commit 1"#,
        1,
    ),
];

static OTHERS: [Try; 11] = [
    // Refused at the preparing, by the shard.
    Try {
        size: Size::Standard,
        plan: Plan {
            moment: Moment::Prepare,
            lines: RAISED_AND_SEEN,
            times: 1,
        },
        line: br#"do counter("x").put(counter("x").get() + 1);"#,
        reply: br#"abort counter("x") whole base 0 clash add 1 commit 1"#,
        left: 0,
    },
    Try {
        size: Size::Standard,
        plan: Plan {
            moment: Moment::Prepare,
            lines: RAISED_AND_SEEN,
            times: 1,
        },
        line: br#"try 2 counter("x").put(counter("x").get() + 1); emit counter("x").get();"#,
        reply: b"commit 2 ok 2",
        left: 0,
    },
    // What reads another counter isn't refused.
    Try {
        size: Size::Standard,
        plan: Plan {
            moment: Moment::Append,
            lines: OTHER_RAISED,
            times: 1,
        },
        line: br#"try 2 counter("x").put(counter("x").get() + 1); emit counter("x").get();"#,
        reply: b"commit 2 ok 1",
        left: 0,
    },
    // A try goes on behind an abort alone: not where the base is too far behind,
    Try {
        size: Size::WindowOfOne,
        plan: Plan {
            moment: Moment::Prepare,
            lines: OTHER_RAISED_AND_SEEN,
            times: 2,
        },
        line: br#"try 3 counter("x").put(counter("x").get() + 1);"#,
        reply: b"late 0 1",
        left: 1,
    },
    // and not where the journal is full.
    Try {
        size: Size::JournalOfOne,
        plan: Plan {
            moment: Moment::Append,
            lines: OTHER_RAISED,
            times: 2,
        },
        line: br#"try 3 counter("x").put(counter("x").get() + 1);"#,
        reply: b"full 1",
        left: 1,
    },
    // Not where the hold of another client bars: its client and number are named.
    Try {
        size: Size::Standard,
        plan: Plan {
            moment: Moment::Append,
            lines: HELD,
            times: 2,
        },
        line: br#"try 3 counter("x").put(counter("x").get() + 1);"#,
        reply: b"held 1 commit 1",
        left: 1,
    },
    // It bars what has read nothing, too, and though the journal is full;
    Try {
        size: Size::JournalOfOne,
        plan: Plan {
            moment: Moment::Append,
            lines: HELD,
            times: 1,
        },
        line: br#"do counter("x").add(5);"#,
        reply: b"held 1 commit 1",
        left: 0,
    },
    // but not what writes elsewhere.
    Try {
        size: Size::Standard,
        plan: Plan {
            moment: Moment::Append,
            lines: HELD,
            times: 1,
        },
        line: br#"do counter("y").add(5);"#,
        reply: b"commit 2 ok",
        left: 0,
    },
    // A clash comes first.
    Try {
        size: Size::Standard,
        plan: Plan {
            moment: Moment::Append,
            lines: RAISED_AND_HELD,
            times: 1,
        },
        line: br#"do counter("x").put(counter("x").get() + 1);"#,
        reply: br#"abort counter("x") whole base 0 clash add 1 commit 1"#,
        left: 0,
    },
    // Whoever holds is not barred, and its next commit ends the hold.
    Try {
        size: Size::Standard,
        plan: Plan {
            moment: Moment::Append,
            lines: HELD_AND_PUT,
            times: 1,
        },
        line: br#"do counter("x").add(5);"#,
        reply: b"commit 3 ok",
        left: 0,
    },
    // The first attempt is refused for the clash, though the journal is full; the second finds it full.
    Try {
        size: Size::JournalOfOne,
        plan: Plan {
            moment: Moment::Append,
            lines: RAISED,
            times: 5,
        },
        line: br#"try 3 counter("x").put(counter("x").get() + 1);"#,
        reply: b"full 1",
        left: 3,
    },
];

// The rows, so that the proof of a test doesn't go through them.

fn overtaken() -> &'static [Overtaken] {
    &OVERTAKEN
}

fn others() -> &'static [Try] {
    &OTHERS
}

/// Whether a try is answered as it should be, and no attempt is left open behind it.
fn tried_over<N: Naming, R: Wait>(
    alloc: Global,
    session: &mut Session,
    rival: &mut Rival<'_, N, R>,
    row: &Try,
) -> bool
    requires { Follows (known_of rival.old.served.pass) session.old }
{
    let turn = say(alloc, session, rival, row.line);
    let behind = say(alloc, session, rival, b"step");
    is_told(alloc, &turn, row.reply)
        && rival.plan.times == row.left
        && is_told(alloc, &behind, b"refused none")
}

/// The same of a client beside a rival.
fn tried_on<'a, N: Naming, R: Wait>(
    rt: &'a R,
    alloc: Global,
    store: &'a TestStore<N>,
    mut first: Founder<N>,
    row: &Try,
) -> bool {
    let Some(faster) = first.join(store) else {
        return false;
    };
    let Some(client) = first.join(store) else {
        return false;
    };
    let other = Talker::new(rt, alloc, store, faster);
    let pass = client.into_pass();
    let served = Served { store, pass, rt };
    let mut session = first_session(alloc, &served);
    let mut rival = Rival {
        alloc,
        served,
        other,
        plan: row.plan,
    };
    tried_over(alloc, &mut session, &mut rival, row)
}

/// The same on a store of its own.
fn tried<N: Naming, R: Wait>(
    rt: &R,
    alloc: Global,
    opened: Opened<Book<MemKeep>>,
    settings: &Settings,
    row: &Try,
) -> bool
    requires lock { opened.lock ≡ N.lock }
    requires settings { HasSettings opened.lock.origin settings.now }
    requires from { from_in opened.lock.origin ≡ opened.lock.base }
    requires author { opened.front.author ≡ None }
{
    match TestStore::<N>::new(alloc, settings, opened, Open) {
        Ok((store, first)) => tried_on(rt, alloc, &store, Founder::new(first), row),
        Err(_) => false,
    }
}

/// The same on a new store.
fn tried_anew<R: Wait>(rt: &R, alloc: Global, row: &Try) -> bool {
    let settings = row.size.settings();
    match open(alloc, &settings, MemKeep, CommitList::new(alloc)) {
        Ok(opened) => tried::<Brand, _>(rt, alloc, opened, &settings, row),
        Err(_) => false,
    }
}

#[test]
fn tries_go_on_behind_aborts_alone(rt: HostRuntime) {
    for (times, line, reply, left) in overtaken() {
        let row = Try {
            size: Size::Standard,
            plan: Plan {
                moment: Moment::Append,
                lines: RAISED,
                times: *times,
            },
            line,
            reply,
            left: *left,
        };
        assert!(rt; tried_anew(&rt, rt.alloc(), &row), "{times} times");
    }
    for (number, row) in others().iter().enumerate() {
        assert!(rt; tried_anew(&rt, rt.alloc(), row), "row {number}");
    }
}
