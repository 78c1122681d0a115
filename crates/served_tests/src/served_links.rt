//! Tests of sessions over links in memory.

ghost use Rattle.std.specs.Prelude.{◌≡◌, None, []};
ghost use Rattle.txn_lang.specs.Journals.{own};
ghost use Rattle.diamond_store.specs.Numbers.{from_in, HasSettings};

use diamond_server::{STORE_FAULT, serve_session};
use diamond_store::{Book, JoinError, Open, Pass, Served, Store, open};
use dio_core::{End, MemLink};
use history_lock::{Naming, Opened};
use journal_core::MemKeep;
use link_buffer::BufferedLink;
use rdt_types::Settings;
use script_runner::{READ_FAULT, TOO_MANY_LINES, WHOLE, WRITE_FAULT};
use std::alloc::{AllocError, Global};
use std::marker::Brand;
use std::process::Abort;
use std::sync::Wait;
use std::thread::{Threads, join};
use txn_lang::CommitList;

/// The store of a test: it keeps nothing, and holds nobody up.
type TestStore<N> = Store<MemKeep, Open, N>;

/// A client's pass on it.
type TestPass<N> = Pass<MemKeep, N>;

/// Two links, each served in a thread of its own, with their statuses.
type Both = ((MemLink, u8), (MemLink, u8));

/// Serves a session of a new client.
fn serve_new<K: End, N: Naming, R: Wait>(
    rt: &R,
    alloc: Global,
    store: &TestStore<N>,
    pass: TestPass<N>,
    link: &mut K,
) -> u8
    requires none { own pass.client pass.journal ≡ [] }
{
    let mut served = Served { store, pass, rt };
    serve_session(alloc, &mut served, link)
}

/// Serves a session of the first client of a store.
fn serve_first<K: End, N: Naming, R: Wait>(
    rt: &R,
    alloc: Global,
    opened: Opened<Book<MemKeep>>,
    settings: &Settings,
    link: &mut K,
) -> Result<u8, AllocError>
    requires lock { opened.lock ≡ N.lock }
    requires settings { HasSettings opened.lock.origin settings.now }
    requires author { opened.front.author ≡ None }
    requires from { from_in opened.lock.origin ≡ opened.lock.base }
{
    let (store, pass) = TestStore::<N>::new(alloc, settings, opened, Open)?;
    Ok(serve_new(rt, alloc, &store, pass, link))
}

/// Serves a session over this link on a store of its own, and answers the status.
fn serve_alone<K: End, R: Wait>(rt: &R, alloc: Global, link: &mut K) -> Result<u8, AllocError> {
    let settings = Settings::standard();
    let opened = open(alloc, &settings, MemKeep, CommitList::new(alloc))?;
    serve_first::<_, Brand, _>(rt, alloc, opened, &settings, link)
}

const LINES: &[u8] = b"do counter(\"x\").add(2); emit counter(\"x\").get();\nseen\nquit\n";

const REPLIES: &[u8] = b"commit 1 ok 2\nseen 1\ndropped\n";

/// What a link gives and in which pieces, the reads and writes that fail, the status, and what is answered.
struct Row {
    bytes: &'static [u8],
    piece: usize,
    reads: &'static [u64],
    writes: &'static [u64],
    status: u8,
    replies: &'static [u8],
}

static ROWS: [Row; 7] = [
    // A session is answered until it quits, also where its lines come in pieces of one byte.
    Row {
        bytes: LINES,
        piece: 1000,
        reads: &[],
        writes: &[],
        status: WHOLE,
        replies: REPLIES,
    },
    Row {
        bytes: LINES,
        piece: 1,
        reads: &[],
        writes: &[],
        status: WHOLE,
        replies: REPLIES,
    },
    // A link may end without a quit.
    Row {
        bytes: b"# a remark\n\ndo emit 7;\nseen",
        piece: 3,
        reads: &[],
        writes: &[],
        status: WHOLE,
        replies: b"commit 1 ok 7\nseen 1\n",
    },
    // Nothing is read behind a quit.
    Row {
        bytes: b"quit\nseen\n",
        piece: 1,
        reads: &[],
        writes: &[],
        status: WHOLE,
        replies: b"dropped\n",
    },
    // A read that fails in a line ends a session: the fifth byte of the second line isn't read.
    Row {
        bytes: b"seen\ndo emit 1;\n",
        piece: 1,
        reads: &[9],
        writes: &[],
        status: READ_FAULT,
        replies: b"seen 0\n",
    },
    // A write that fails ends a session, and so does a flush. The calls of the sink are a write and a flush for each line.
    Row {
        bytes: b"do emit 1;\n",
        piece: 1000,
        reads: &[],
        writes: &[0],
        status: WRITE_FAULT,
        replies: b"",
    },
    Row {
        bytes: b"seen\nseen\nseen\n",
        piece: 1000,
        reads: &[],
        writes: &[3],
        status: WRITE_FAULT,
        replies: b"seen 0\nseen 0\n",
    },
];

/// The rows, so that the proof of a test doesn't go through them.
fn rows() -> &'static [Row] {
    &ROWS
}

/// Whether a session over the link of a row ends so. Where it ends whole, all that was answered was passed on.
fn is_answered<R: Wait>(rt: &R, alloc: Global, row: &Row) -> bool {
    match MemLink::new(alloc, row.bytes, row.piece.max(1), row.reads, row.writes) {
        Ok(mut link) => {
            serve_alone(rt, alloc, &mut link) == Ok(row.status)
                && link.sink.taken() == row.replies
                && (row.status != WHOLE || link.sink.passed() == row.replies)
        }
        Err(_) => false,
    }
}

#[test]
fn sessions_are_answered_to_their_ends(rt: HostRuntime) {
    for (number, row) in rows().iter().enumerate() {
        assert!(rt; is_answered(&rt, rt.alloc(), row), "row {number}");
    }
}

/// Bytes, so many times, and others behind them.
fn times(alloc: Global, bytes: &[u8], count: usize, behind: &[u8]) -> Result<Vec<u8>, AllocError> {
    let mut all = Vec::new(alloc);
    for _ in 0..count {
        all.extend_from_slice(bytes)?;
    }
    all.extend_from_slice(behind)?;
    Ok(all)
}

/// Whether a session over a link that gives these bytes ends with a status and these replies, where the link reads ahead and
/// where it doesn't.
fn are_answered<R: Wait>(
    rt: &R,
    alloc: Global,
    bytes: &Result<Vec<u8>, AllocError>,
    status: u8,
    replies: &[u8],
) -> bool {
    match bytes {
        Ok(bytes) => {
            is_answered_over(rt, alloc, bytes.as_slice(), status, replies)
                && is_answered_ahead(rt, alloc, bytes.as_slice(), status, replies)
        }
        Err(_) => false,
    }
}

fn is_answered_over<R: Wait>(
    rt: &R,
    alloc: Global,
    bytes: &[u8],
    status: u8,
    replies: &[u8],
) -> bool {
    match MemLink::new(alloc, bytes, 1000, &[], &[]) {
        Ok(mut link) => {
            serve_alone(rt, alloc, &mut link) == Ok(status) && link.sink.taken() == replies
        }
        Err(_) => false,
    }
}

fn is_answered_ahead<R: Wait>(
    rt: &R,
    alloc: Global,
    bytes: &[u8],
    status: u8,
    replies: &[u8],
) -> bool {
    match MemLink::new(alloc, bytes, 1000, &[], &[]) {
        Ok(link) => {
            let mut ahead = BufferedLink::new(link);
            serve_alone(rt, alloc, &mut ahead) == Ok(status)
                && ahead.into_inner().sink.taken() == replies
        }
        Err(_) => false,
    }
}

/// A line of 4,097 bytes is too long, and one of 4,096 isn't: it is a remark. A session has a million lines at most.
#[test]
fn lines_and_sessions_have_a_length(rt: HostRuntime) {
    let alloc = rt.alloc();
    let too_long = times(alloc, b"#", 4097, b"\nseen\n");
    assert!(rt; are_answered(&rt, alloc, &too_long, WHOLE, b"refused long\nseen 0\n"));
    let longest = times(alloc, b"#", 4096, b"\nseen\n");
    assert!(rt; are_answered(&rt, alloc, &longest, WHOLE, b"seen 0\n"));
    let lines = times(alloc, b"\n", 1_000_001, b"");
    assert!(rt;
        matches!(&lines, Ok(lines) if is_answered_over(&rt, alloc, lines, TOO_MANY_LINES, b""))
    );
}

/// The replies to so many commits, and to a `quit`.
fn commit_replies(alloc: Global, count: u32) -> Result<Vec<u8>, AllocError> {
    let mut all = Vec::new(alloc);
    for number in 0..count {
        let reply = format!(in alloc; "commit {} ok 7\n", number + 1)?;
        all.extend_from_slice(reply.as_bytes())?;
    }
    all.extend_from_slice(b"dropped\n")?;
    Ok(all)
}

/// A client that sends a thousand lines at once gets every reply, in order, and what stands behind its `quit` gets none.
#[test]
fn lines_that_are_sent_at_once_are_all_answered(rt: HostRuntime) {
    let alloc = rt.alloc();
    let lines = times(alloc, b"do emit 7;\n", 1_000, b"quit\nseen\ndo emit 8;\n");
    match commit_replies(alloc, 1_000) {
        Ok(replies) => {
            assert!(rt; are_answered(&rt, alloc, &lines, WHOLE, replies.as_slice()));
        }
        Err(_) => assert!(rt; false),
    }
}

/// The status of a fault of the store has a number of its own.
#[test]
fn the_stores_status_is_six(rt: HostRuntime) {
    assert_eq!(rt; STORE_FAULT, 6);
}

/// A session that goes into a thread, and comes back as its link and its status.
fn work<N: Naming, R: Wait>(
    rt: &R,
    alloc: Global,
    store: &TestStore<N>,
    pass: TestPass<N>,
    mut link: MemLink,
) -> (MemLink, u8)
    requires none { own pass.client pass.journal ≡ [] }
{
    let status = serve_new(rt, alloc, store, pass, &mut link);
    (link, status)
}

/// The links of two clients.
#[derive(Drop)]
struct Links {
    one: MemLink,
    two: MemLink,
}

/// Two links, each served in a thread of its own.
fn serve_two<N: Naming + Send + Sync, R: Threads + Wait + Abort + Sync>(
    rt: &R,
    alloc: Global,
    opened: Opened<Book<MemKeep>>,
    settings: &Settings,
    links: Links,
) -> Result<Both, AllocError>
    requires lock { opened.lock ≡ N.lock }
    requires settings { HasSettings opened.lock.origin settings.now }
    requires author { opened.front.author ≡ None }
    requires from { from_in opened.lock.origin ≡ opened.lock.base }
{
    let (store, mut first) = TestStore::<N>::new(alloc, settings, opened, Open)?;
    let other = match store.join(&mut first) {
        Ok(other) => other,
        Err(JoinError::NoMemory) => return Err(AllocError),
        Err(JoinError::Clients(_)) => panic!(rt; "no client's number is left"),
    };
    let Links { one, two } = links;
    Ok(join(
        rt,
        || work(rt, alloc, &store, first, one),
        || work(rt, alloc, &store, other, two),
    ))
}

/// Two links on a store of their own.
fn both_served<R: Threads + Wait + Abort + Sync>(
    rt: &R,
    alloc: Global,
    links: Links,
) -> Result<Both, AllocError> {
    let settings = Settings::standard();
    let opened = open(alloc, &settings, MemKeep, CommitList::new(alloc))?;
    serve_two::<Brand, _>(rt, alloc, opened, &settings, links)
}

/// Whether a link came to its end, and has taken this.
fn is_whole(served: &(MemLink, u8), replies: &[u8]) -> bool {
    served.1 == WHOLE && served.0.sink.taken() == replies
}

/// What each of two clients says, and what it is answered.
struct Talk {
    first: &'static [u8],
    answers: &'static [u8],
    second: &'static [u8],
    second_answers: &'static [u8],
}

static TALKS: [Talk; 2] = [
    // Each waits for what the other commits.
    Talk {
        first: b"watch w emit counter(\"x\").get();\ndo counter(\"y\").add(1);\nwait\nquit\n",
        answers: b"run w 0 ok 0\ncommit 1 ok\nrun w 2 ok 1\ncurrent 2\ndropped\n",
        second: b"wait\ndo counter(\"x\").add(1);\nquit\n",
        second_answers: b"current 1\ncommit 2 ok\ndropped\n",
    },
    // What the first holds the second may not disturb, until the first has committed.
    Talk {
        first: b"do emit \"hold\"; emit counter(\"x\").get();\nwait\ndo counter(\"x\").put(counter(\"x\").get() + 1);\nquit\n",
        answers: b"commit 1 ok \"hold\" 0\ncurrent 2\ncommit 3 ok\ndropped\n",
        second: b"wait\ndo counter(\"x\").add(5);\ntry 2 counter(\"x\").put(counter(\"x\").get() + 5);\ndo emit 1;\nwait\ndo counter(\"x\").add(5); emit counter(\"x\").get();\nquit\n",
        second_answers: b"current 1\nheld 0 commit 1\nheld 0 commit 1\ncommit 2 ok 1\ncurrent 3\ncommit 4 ok 6\ndropped\n",
    },
];

/// The talks, so that the proof of a test doesn't go through them.
fn talks() -> &'static [Talk] {
    &TALKS
}

/// Whether both links came to their ends, and were answered as a talk says.
fn are_answered_so(both: &Result<Both, AllocError>, talk: &Talk) -> bool {
    match both {
        Ok((one, two)) => is_whole(one, talk.answers) && is_whole(two, talk.second_answers),
        Err(_) => false,
    }
}

/// Whether two sessions over one store come to a talk.
fn is_talk<R: Threads + Wait + Abort + Sync>(rt: &R, alloc: Global, talk: &Talk) -> bool {
    match (
        MemLink::new(alloc, talk.first, 16, &[], &[]),
        MemLink::new(alloc, talk.second, 16, &[], &[]),
    ) {
        (Ok(one), Ok(two)) => { are_answered_so(&both_served(rt, alloc, Links { one, two }), talk) }
        _ => false,
    }
}

#[test]
fn sessions_wait_and_hold_each_other_back(rt: HostRuntime) {
    for (number, talk) in talks().iter().enumerate() {
        assert!(rt; is_talk(&rt, rt.alloc(), talk), "talk {number}");
    }
}
