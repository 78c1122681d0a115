//! Tests of all sessions of a listener.

ghost use Rattle.std.specs.Prelude.{◌≡◌, None};
ghost use Rattle.diamond_store.specs.Numbers.{from_in, HasSettings};

use diamond_server::{NO_CLIENT, serve_all};
use diamond_store::{Book, Gate, Open, Store, open};
use dio_core::{Count, FaultPlan, Listener, MemLink, MemLinks, MemListener};
use history_lock::{Naming, Opened};
use journal_core::{Keep, KeepFault, MemKeep};
use plain_data::Text;
use rdt_types::Settings;
use script_runner::{READ_FAULT, WHOLE, WRITE_FAULT};
use std::alloc::{AllocError, Global};
use std::marker::Brand;
use std::sync::Wait;
use std::sync::atomic::{AtomicBool, Ordering};
use std::thread::Threads;
use txn_lang::{Commit, CommitList};

/// How many links were accepted, how many were given back with another status than 0, whether an accept failed, and how many
/// commits there are then.
type Outcome = (u32, u32, bool, usize);

/// A listener, and how many of its links are served at most.
#[derive(Drop)]
struct Arrivals<Li> {
    listener: Li,
    sessions: u32,
}

/// A journal that was just opened, and the settings of its store.
#[derive(Drop)]
struct Beginning<'s, K: Keep> {
    opened: Opened<Book<K>>,
    settings: &'s Settings,
}

/// Serves the links of a listener over a store that was just opened.
fn serve_over<
    Li: Listener,
    K: Keep + Send,
    G: Gate + Drop + Send + Sync,
    N: Naming + Send + Sync,
    R: Threads + Wait + Sync,
>(
    rt: &R,
    alloc: Global,
    beginning: Beginning<'_, K>,
    gate: G,
    arrivals: &mut Arrivals<Li>,
) -> Result<Outcome, AllocError>
    requires lock { beginning.opened.lock ≡ N.lock }
    requires settings { HasSettings beginning.opened.lock.origin beginning.settings.now }
    requires author { beginning.opened.front.author ≡ None }
    requires from { from_in beginning.opened.lock.origin ≡ beginning.opened.lock.base }
{
    let Beginning { opened, settings } = beginning;
    let (store, mut pass) = Store::<K, G, N>::new(alloc, settings, opened, gate)?;
    let tally = serve_all(
        rt,
        alloc,
        &mut arrivals.listener,
        &store,
        &mut pass,
        arrivals.sessions,
    )?;
    let closed = store.close(rt, pass);
    Ok((
        tally.accepted,
        tally.faulted,
        tally.failed,
        closed.commits.len(),
    ))
}

/// The same over a store of its own, whose commits this keeps.
fn serve_kept<Li: Listener, K: Keep + Send, G: Gate + Drop + Send + Sync, R: Threads + Wait + Sync>(
    rt: &R,
    alloc: Global,
    keep: K,
    gate: G,
    arrivals: &mut Arrivals<Li>,
) -> Result<Outcome, AllocError>
    requires { K.kept keep ≡ None }
{
    let settings = Settings::standard();
    let opened = open(alloc, &settings, keep, CommitList::new(alloc))?;
    let beginning = Beginning {
        opened,
        settings: &settings,
    };
    serve_over::<_, _, _, Brand, _>(rt, alloc, beginning, gate, arrivals)
}

/// What a link gives in pieces of 16 bytes, and which of its reads and writes fail.
type Given = (&'static [u8], &'static [u64], &'static [u64]);

/// How a link was given back: its status, and what it has taken, where that is said.
type Back = (u8, Option<&'static [u8]>);

/// The links of a listener, the accepts that fail, how many sessions are asked for, and what comes of that.
struct Row {
    links: &'static [Given],
    accepts: &'static [u64],
    sessions: u32,
    outcome: Outcome,
    back: &'static [Back],
}

/// The listener of a row, and how many sessions are asked for.
fn arrivals_of(alloc: Global, row: &Row) -> Result<Arrivals<MemListener>, AllocError> {
    let mut links = MemLinks::new(alloc);
    for (bytes, reads, writes) in row.links {
        links.push(MemLink::new(alloc, bytes, 16, reads, writes)?)?;
    }
    let plan = FaultPlan::new(alloc, row.accepts)?;
    Ok(Arrivals {
        listener: MemListener::failing(alloc, links, plan),
        sessions: row.sessions,
    })
}

/// Whether the links were given back so, in their order.
fn gave_back(listener: &MemListener, wanted: &[Back]) -> bool {
    let back = listener.back().as_slice();
    for (pair, (status, taken)) in back.iter().zip(wanted) {
        if pair.1 != *status || taken.is_some_and(|bytes| pair.0.sink.taken() != bytes) {
            return false;
        }
    }
    back.len() == wanted.len()
}

/// Whether this comes of a row, over a store whose commits this keeps.
fn is_served<K: Keep + Send, G: Gate + Drop + Send + Sync, R: Threads + Wait + Sync>(
    rt: &R,
    alloc: Global,
    keep: K,
    gate: G,
    row: &Row,
) -> bool
    requires { K.kept keep ≡ None }
{
    let Ok(mut arrivals) = arrivals_of(alloc, row) else {
        return false;
    };
    serve_kept(rt, alloc, keep, gate, &mut arrivals) == Ok(row.outcome)
        && gave_back(&arrivals.listener, row.back)
}

const LINES: &[u8] = b"do counter(\"x\").add(2); emit counter(\"x\").get();\nseen\nquit\n";

const REPLIES: &[u8] = b"commit 1 ok 2\nseen 1\ndropped\n";

const ONE: Given = (b"do emit 1;\n", &[], &[]);

const TWO: Given = (b"do emit 2;\n", &[], &[]);

/// Ten lines, each of which adds to the counter `x`.
const TEN: Given = (
    b"do counter(\"x\").add(1);\ndo counter(\"x\").add(1);\ndo counter(\"x\").add(1);\ndo counter(\"x\").add(1);\ndo counter(\"x\").add(1);\ndo counter(\"x\").add(1);\ndo counter(\"x\").add(1);\ndo counter(\"x\").add(1);\ndo counter(\"x\").add(1);\ndo counter(\"x\").add(1);\n",
    &[],
    &[],
);

static ROWS: [Row; 7] = [
    // One link is served and given back.
    Row {
        links: &[(LINES, &[], &[])],
        accepts: &[],
        sessions: 1,
        outcome: (1, 0, false, 1),
        back: &[(WHOLE, Some(REPLIES))],
    },
    // Links come back in order, each with its status.
    Row {
        links: &[
            (b"seen\n", &[], &[]),
            (b"seen\n", &[0], &[]),
            (b"do emit 1;\n", &[], &[0]),
            (b"do emit 2;\nwai", &[], &[]),
        ],
        accepts: &[],
        sessions: 4,
        outcome: (4, 2, false, 2),
        back: &[
            (WHOLE, None),
            (READ_FAULT, Some(b"")),
            (WRITE_FAULT, Some(b"")),
            (WHOLE, None),
        ],
    },
    // A client may leave in mid-line: what it sent of the line is a line, since the input ends there.
    Row {
        links: &[(b"do emit 2;\nwai", &[], &[])],
        accepts: &[],
        sessions: 1,
        outcome: (1, 0, false, 1),
        back: &[(WHOLE, Some(b"commit 1 ok 2\nrefused verb\n"))],
    },
    // No more links are accepted than are asked for, and fewer where none is left.
    Row {
        links: &[ONE, TWO],
        accepts: &[],
        sessions: 1,
        outcome: (1, 0, false, 1),
        back: &[(WHOLE, None)],
    },
    Row {
        links: &[ONE, TWO],
        accepts: &[],
        sessions: 1000,
        outcome: (2, 0, false, 2),
        back: &[(WHOLE, None), (WHOLE, None)],
    },
    // An accept that fails ends the accepting.
    Row {
        links: &[ONE, TWO],
        accepts: &[1],
        sessions: 2,
        outcome: (1, 0, true, 1),
        back: &[(WHOLE, Some(b"commit 1 ok 1\n"))],
    },
    // Sixty-four sessions are served at once.
    Row {
        links: &[TEN; 64],
        accepts: &[],
        sessions: 64,
        outcome: (64, 0, false, 640),
        back: &[(WHOLE, None); 64],
    },
];

/// The rows, so that the proof of a test doesn't go through them.
fn rows() -> &'static [Row] {
    &ROWS
}

#[test]
fn links_are_served_and_given_back(rt: HostRuntime) {
    for (number, row) in rows().iter().enumerate() {
        assert!(rt;
            is_served(&rt, rt.alloc(), MemKeep, Open, row),
            "row {number}"
        );
    }
}

/// Two rooms. Who enters one waits until somebody has entered the other, and no longer than so many turns.
#[derive(Drop)]
struct Rooms {
    first: AtomicBool,
    second: AtomicBool,
    missed: AtomicBool,
}

const MOST_TURNS: u32 = 100_000_000;

impl Rooms {
    fn new() -> Rooms {
        Rooms {
            first: AtomicBool::new(false),
            second: AtomicBool::new(false),
            missed: AtomicBool::new(false),
        }
    }

    /// Enters one room, and waits for the other.
    fn meet(&self, mine: &AtomicBool, other: &AtomicBool) {
        mine.store(true, Ordering::SeqCst);
        for _ in 0..MOST_TURNS {
            if other.load(Ordering::SeqCst) {
                return;
            }
        }
        self.missed.store(true, Ordering::SeqCst);
    }
}

/// A gate to two rooms, each in a shard's lock.
#[derive(Drop)]
struct Gates<'a> {
    rooms: &'a Rooms,
}

impl<'a> Gate for Gates<'a> {
    fn at(&self, shard: u8) {
        match shard {
            1 => self.rooms.meet(&self.rooms.first, &self.rooms.second),
            2 => self.rooms.meet(&self.rooms.second, &self.rooms.first),
            _ => {}
        }
    }
}

/// Two links, each of which reads in another shard.
static TWO_SHARDS: Row = Row {
    links: &[
        (b"do emit counter(\"x\").get();\n", &[], &[]),
        (b"do emit counter(\"y\").get();\n", &[], &[]),
    ],
    accepts: &[],
    sessions: 2,
    outcome: (2, 0, false, 2),
    back: &[(WHOLE, None), (WHOLE, None)],
};

/// Two sessions stand in the locks of two shards at the same time.
#[test]
fn two_shards(rt: HostRuntime) {
    let rooms = Rooms::new();
    assert!(rt;
        is_served(
            &rt,
            rt.alloc(),
            MemKeep,
            Gates { rooms: &rooms },
            &TWO_SHARDS
        )
    );
    assert!(rt; rooms.first.load(Ordering::SeqCst) && rooms.second.load(Ordering::SeqCst));
    assert!(rt; !rooms.missed.load(Ordering::SeqCst));
}

/// The status of a link for which no number is left has a number of its own.
#[test]
fn the_status_without_a_client_is_thirteen(rt: HostRuntime) {
    assert_eq!(rt; NO_CLIENT, 13);
}

/// A keeper whose disk denies each commit.
#[derive(Drop)]
struct Denying {
    faults: Count,
}

impl Keep for Denying {
    ghost use Rattle.std.specs.Prelude.{None, true, []};

    ghost kept = { λ _. None };

    ghost keep_faults = { λ keeper. keeper.faults };

    ghost home = { λ _. 0 };

    ghost may_fail = { true };

    ghost stands_for = { λ bytes _. bytes ≡ [] };

    fn make(&self, alloc: Global, _commit: &Commit) -> Result<Text, AllocError> {
        Ok(Text::new(alloc))
    }

    fn keep(&mut self, _bytes: &Text) -> Result<(), KeepFault> {
        self.faults.add_one();
        Err(KeepFault)
    }

    fn keep_faults(&self) -> u64 {
        self.faults.get()
    }
}

/// A commit that the disk denies is answered as such, and the session goes on.
static DENIED: Row = Row {
    links: &[(
        b"do counter(\"x\").add(1);\nlook emit counter(\"x\").get();\nquit\n",
        &[],
        &[],
    )],
    accepts: &[],
    sessions: 1,
    outcome: (1, 0, false, 0),
    back: &[(WHOLE, Some(b"disk\nat 0 ok 0\ndropped\n"))],
};

#[test]
fn sessions_go_on_where_the_disk_denies_a_commit(rt: HostRuntime) {
    let keep = Denying {
        faults: Count::new(),
    };
    assert!(rt; is_served(&rt, rt.alloc(), keep, Open, &DENIED));
}

/// Two commits, and a look at how many there are.
const COMMITS: &[u8] = b"do emit 1;\ndo emit 2;\nseen\nquit\n";

const ANSWERS: &[u8] = b"commit 1 ok 1\ncommit 2 ok 2\nseen 2\ndropped\n";

/// What the session beside it is answered.
const LOOK: &[u8] = b"at 0 ok 7\ndropped\n";

/// How a session has ended, one of whose link's calls was to fail.
#[derive(Clone, Copy, Debug, PartialEq, Eq)]
enum Ending {
    /// By that fault. The link took a prefix of the answers, and no more than one commit was made that isn't answered in it.
    CutShort,
    /// The call wasn't made, and all was answered.
    Whole,
    /// Neither way.
    Otherwise,
}

/// How many commits these answers tell of.
fn commits_told(answers: &[u8]) -> usize {
    let lines = answers.iter().filter(|byte| **byte == b'\n').count();
    lines.min(2)
}

/// How the session of this link has ended, with so many commits.
fn ending_of(link: &MemLink, status: u8, commits: usize, fault: u8) -> Ending {
    let taken = link.sink.taken();
    let told = commits_told(taken);
    if status == WHOLE && commits == 2 && taken == ANSWERS {
        return Ending::Whole;
    }
    if status == fault
        && told <= commits
        && commits.saturating_sub(told) <= 1
        && ANSWERS.starts_with(taken)
    {
        return Ending::CutShort;
    }
    Ending::Otherwise
}

/// Whether the session that goes on beside it was answered to its end.
fn went_on(link: &MemLink, status: u8) -> bool {
    status == WHOLE && link.sink.taken() == LOOK
}

/// How the first session has ended, where the second has been answered to its end.
fn ending_in(listener: &MemListener, outcome: &Result<Outcome, AllocError>, fault: u8) -> Ending {
    match (outcome, listener.back().as_slice()) {
        (Ok((2, _, false, commits)), [(first, status), (second, other)])
            if went_on(second, *other) => { ending_of(first, *status, *commits, fault) }
        _ => Ending::Otherwise,
    }
}

/// Two links, in pieces of three bytes. Of the first these calls fail.
fn two_links(
    alloc: Global,
    reads: &[u64],
    writes: &[u64],
) -> Result<Arrivals<MemListener>, AllocError> {
    let mut links = MemLinks::new(alloc);
    links.push(MemLink::new(alloc, COMMITS, 3, reads, writes)?)?;
    links.push(MemLink::new(alloc, b"at 0 emit 7;\nquit\n", 3, &[], &[])?)?;
    Ok(Arrivals {
        listener: MemListener::new(alloc, links),
        sessions: 2,
    })
}

/// How a session ends whose link fails at these calls, beside one whose link doesn't.
fn end_beside<R: Threads + Wait + Sync>(
    rt: &R,
    alloc: Global,
    reads: &[u64],
    writes: &[u64],
    fault: u8,
) -> Ending {
    let Ok(mut arrivals) = two_links(alloc, reads, writes) else {
        return Ending::Otherwise;
    };
    let outcome = serve_kept(rt, alloc, MemKeep, Open, &mut arrivals);
    ending_in(&arrivals.listener, &outcome, fault)
}

/// How many calls the link of a session makes at most, a number far above what it does.
const MOST_CALLS: u64 = 1000;

/// At how many reads of its link a session was cut short, each in a run of its own, up to the first that isn't made.
fn reads_cut_short<R: Threads + Wait + Sync>(rt: &R, alloc: Global) -> Option<u64> {
    for call in 0..MOST_CALLS {
        match end_beside(rt, alloc, &[call], &[], READ_FAULT) {
            Ending::CutShort => {}
            Ending::Whole => return Some(call),
            Ending::Otherwise => return None,
        }
    }
    None
}

/// The same of its writes and flushes.
fn writes_cut_short<R: Threads + Wait + Sync>(rt: &R, alloc: Global) -> Option<u64> {
    for call in 0..MOST_CALLS {
        match end_beside(rt, alloc, &[], &[call], WRITE_FAULT) {
            Ending::CutShort => {}
            Ending::Whole => return Some(call),
            Ending::Otherwise => return None,
        }
    }
    None
}

/// A link that sees nothing ahead reads a line byte by byte: 11, 11, 5 and 5 reads. Its answer is written in pieces of three,
/// and flushed: 6, 6, 4 and 4 calls.
#[test]
fn a_link_that_fails_at_any_call_cuts_its_own_session_short(rt: HostRuntime) {
    assert!(rt; reads_cut_short(&rt, rt.alloc()) == Some(32));
    assert!(rt; writes_cut_short(&rt, rt.alloc()) == Some(20));
}
