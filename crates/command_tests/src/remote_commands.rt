//! `remote` through the top call: over links in memory, whose bytes are written out here, and over the loopback, where `serve` answers
//! requests.

use diamond_cli::{BROKEN_LINK, LINK_FAULT, LISTENER_FAULT, NO_LINK, WRITE_FAULT, diamond};
use dio_core::{
    FaultPlan, Listener, MemLink, MemLinks, MemListener, MemSink, MemSource, NoDisk, NoListener,
    TcpListening,
};
use link_ends::Connecting;
use script_runner::{READ_FAULT, WHOLE};
use std::alloc::{AllocError, Global};
use std::net::{SocketAddr, TcpStream};
use std::process::Abort;
use std::sync::Wait;
use std::thread;
use std::thread::Threads;

/// What a link gives in pieces of 7 bytes, and which of its reads and writes fail.
type Given = (&'static [u8], &'static [u64], &'static [u64]);

/// The lines of a session, the reads of these and the writes of its replies that fail; the links, the accepts that fail; the status, the
/// replies, and what the link has taken, where it was given back.
struct Row {
    lines: &'static [u8],
    reads: &'static [u64],
    writes: &'static [u64],
    links: &'static [Given],
    accepts: &'static [u64],
    status: u8,
    replies: &'static [u8],
    asked: Option<&'static [u8]>,
}

/// To a greeting: client 0 of an empty store with 4 shards.
const GREETED: &[u8] = b"\0\0\0\x0e\0\0\0\0\0\0\0\0\0\0\0\0\0\x04";

/// The greeting.
const HELLO: &[u8] = b"\0\0\0\x01\x01";

/// To a greeting, a refresh, and a commit: the first of all commits.
const COMMITTED: &[u8] = b"\0\0\0\x0e\0\0\0\0\0\0\0\0\0\0\0\0\0\x04\
\0\0\0\x09\0\0\0\0\0\0\0\0\0\
\0\0\0\x11\0\0\0\0\0\0\0\0\x01\0\0\0\0\0\0\0\x01";

/// A greeting, a refresh, and the client's first commit, whose body observes nothing.
const COMMITTING: &[u8] = b"\0\0\0\x01\x01\
\0\0\0\x01\x02\
\0\0\0\x18\x05\0\0\0\0\0\0\0\x01\0\0\0\x07emit 1;\0\0\0\0";

/// To a greeting and a refresh: 5 commits are seen, and then 4.
const GOING_BACK: &[u8] = b"\0\0\0\x0e\0\0\0\0\0\0\0\0\x05\0\0\0\0\x04\
\0\0\0\x09\0\0\0\0\0\0\0\0\x04";

static ROWS: [Row; 11] = [
    Row {
        lines: b"seen\nquit\n",
        reads: &[],
        writes: &[],
        links: &[(GREETED, &[], &[])],
        accepts: &[],
        status: WHOLE,
        replies: b"seen 0\ndropped\n",
        asked: Some(HELLO),
    },
    Row {
        lines: b"do emit 1;\n",
        reads: &[],
        writes: &[],
        links: &[(COMMITTED, &[], &[])],
        accepts: &[],
        status: WHOLE,
        replies: b"commit 1 ok 1\n",
        asked: Some(COMMITTING),
    },
    // What is no answer breaks the link, also where it ends early or goes back.
    Row {
        lines: b"seen\n",
        reads: &[],
        writes: &[],
        links: &[(b"\0\0\0\x01\x63", &[], &[])],
        accepts: &[],
        status: BROKEN_LINK,
        replies: b"",
        asked: Some(HELLO),
    },
    Row {
        lines: b"seen\n",
        reads: &[],
        writes: &[],
        links: &[(b"\0\0\0\x0e\0\0", &[], &[])],
        accepts: &[],
        status: BROKEN_LINK,
        replies: b"",
        asked: Some(HELLO),
    },
    Row {
        lines: b"begin emit 1;\n",
        reads: &[],
        writes: &[],
        links: &[(GOING_BACK, &[], &[])],
        accepts: &[],
        status: BROKEN_LINK,
        replies: b"",
        asked: Some(b"\0\0\0\x01\x01\0\0\0\x01\x02"),
    },
    // A fault of the link.
    Row {
        lines: b"seen\n",
        reads: &[],
        writes: &[],
        links: &[(GREETED, &[0], &[])],
        accepts: &[],
        status: LINK_FAULT,
        replies: b"",
        asked: Some(HELLO),
    },
    Row {
        lines: b"seen\n",
        reads: &[],
        writes: &[],
        links: &[(GREETED, &[], &[0])],
        accepts: &[],
        status: LINK_FAULT,
        replies: b"",
        asked: Some(b""),
    },
    // Faults of the source and of the sink.
    Row {
        lines: b"seen\n",
        reads: &[0],
        writes: &[],
        links: &[(GREETED, &[], &[])],
        accepts: &[],
        status: READ_FAULT,
        replies: b"",
        asked: Some(HELLO),
    },
    Row {
        lines: b"seen\n",
        reads: &[],
        writes: &[0],
        links: &[(GREETED, &[], &[])],
        accepts: &[],
        status: WRITE_FAULT,
        replies: b"",
        asked: Some(HELLO),
    },
    // No link is left, or the accept fails.
    Row {
        lines: b"seen\n",
        reads: &[],
        writes: &[],
        links: &[],
        accepts: &[],
        status: NO_LINK,
        replies: b"",
        asked: None,
    },
    Row {
        lines: b"seen\n",
        reads: &[],
        writes: &[],
        links: &[(GREETED, &[], &[])],
        accepts: &[0],
        status: LISTENER_FAULT,
        replies: b"",
        asked: None,
    },
];

/// The rows, so that the proof of a test doesn't go through them.
fn rows() -> &'static [Row] {
    &ROWS
}

/// The listener of a row.
fn listener_of(alloc: Global, row: &Row) -> Result<MemListener, AllocError> {
    let mut links = MemLinks::new(alloc);
    for (bytes, reads, writes) in row.links {
        links.push(MemLink::new(alloc, bytes, 7, reads, writes)?)?;
    }
    let plan = FaultPlan::new(alloc, row.accepts)?;
    Ok(MemListener::failing(alloc, links, plan))
}

/// Runs a session over the listener's link, and answers whether it ends with a status, and these are the replies.
fn ends_so(
    rt: &(impl Abort + Threads + Wait + Sync),
    alloc: Global,
    row: &Row,
    listener: &mut impl Listener,
) -> bool {
    let source = MemSource::new(alloc, row.lines, 5, row.reads);
    let (Ok(mut source), Ok(mut sink)) = (source, MemSink::new(alloc, 100, row.writes)) else {
        return false;
    };
    let found = diamond(
        rt,
        alloc,
        &["remote", "--address", "a"],
        &mut source,
        &mut sink,
        &mut NoDisk::new(),
        listener,
    );
    found == row.status && sink.taken() == row.replies
}

/// Whether the link was given back with the row's status, and has taken this.
fn gave_back(listener: &MemListener, row: &Row) -> bool {
    match (listener.back().as_slice(), row.asked) {
        ([], None) => true,
        ([(link, status)], Some(asked)) => *status == row.status && link.sink.taken() == asked,
        _ => false,
    }
}

/// Whether this comes of a row.
fn is_answered(rt: &(impl Abort + Threads + Wait + Sync), alloc: Global, row: &Row) -> bool {
    match listener_of(alloc, row) {
        Ok(mut listener) => { ends_so(rt, alloc, row, &mut listener) && gave_back(&listener, row) }
        Err(_) => false,
    }
}

#[test]
fn a_session_is_run_over_the_link(rt: HostRuntime) {
    for (number, row) in rows().iter().enumerate() {
        assert!(rt; is_answered(&rt, rt.alloc(), row), "row {number}");
    }
}

/// A session that commits, looks at what it has done, watches it and is told of a change.
static SESSION: Row = Row {
    lines: b"do counter(\"x\").add(2); emit counter(\"x\").get();\nlook emit counter(\"x\").get();\n\
watch w emit counter(\"x\").get();\ndo counter(\"x\").add(3);\nsync\nat 1 emit counter(\"x\").get();\nquit\n",
    reads: &[],
    writes: &[],
    links: &[],
    accepts: &[],
    status: WHOLE,
    replies: b"commit 1 ok 2\nat 1 ok 2\nrun w 1 ok 2\ncommit 2 ok\nrun w 2 ok 5\ncurrent 2\nat 1 ok 2\ndropped\n",
    asked: None,
};

/// What a server says at the end of that session.
const SERVED: &[u8] = b"served 1 sessions 0 faulted commits 2\n";

/// Serves requests over the listener's first link, and answers whether one session has ended well.
fn is_served(
    rt: &(impl Abort + Threads + Wait + Sync),
    alloc: Global,
    listener: &mut impl Listener,
) -> bool {
    let source = MemSource::new(alloc, b"", 5, &[]);
    let (Ok(mut source), Ok(mut sink)) = (source, MemSink::new(alloc, 100, &[])) else {
        return false;
    };
    let status = diamond(
        rt,
        alloc,
        &["serve", "--address", "a", "--form", "wire"],
        &mut source,
        &mut sink,
        &mut NoDisk::new(),
        listener,
    );
    status == WHOLE && sink.taken() == SERVED
}

#[test]
fn a_session_over_the_loopback_is_answered_by_a_server(rt: HostRuntime) {
    let mut served = TcpListening::bind(&rt, &rt, "127.0.0.1:0");
    let address: Option<SocketAddr> = served.address();
    let connection = address.and_then(|address| TcpStream::connect(&rt, address).ok());
    // Where the client didn't come, no accept would return.
    assert!(rt; connection.is_some());
    let mut connecting = Connecting::new(connection);
    let alloc = rt.alloc();
    let (answered, told) = thread::join(
        &rt,
        || is_served(&rt, alloc, &mut served),
        || {
            let told = ends_so(&rt, alloc, &SESSION, &mut connecting);
            drop(connecting);
            told
        },
    );
    assert!(rt; told);
    assert!(rt; answered);
}

/// A session over nothing.
static NOBODY: Row = Row {
    lines: b"seen\n",
    reads: &[],
    writes: &[],
    links: &[],
    accepts: &[],
    status: LISTENER_FAULT,
    replies: b"",
    asked: None,
};

#[test]
fn nobody_is_reached_where_nobody_listens(rt: HostRuntime) {
    assert!(rt; ends_so(&rt, rt.alloc(), &NOBODY, &mut NoListener::new()));
}
