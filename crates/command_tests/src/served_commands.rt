//! `serve` through the top call: links in memory with faults at named calls, and one over the loopback.

ghost use Rattle.std.specs.Prelude.{◌≡◌, ◌<◌};

use alert_net::AlertNet;
use diamond_cli::{LISTENER_FAULT, diamond};
use dio_core::{
    FaultPlan, Listener, MemLink, MemLinks, MemListener, MemSink, MemSource, NoDisk, NoListener,
    TcpListening,
};
use script_runner::{READ_FAULT, WHOLE, WRITE_FAULT};
use std::alloc::{AllocError, Global};
use std::io;
use std::io::{ErrorKind, Write};
use std::net::{SocketAddr, TcpStream};
use std::process::Abort;
use std::sync::Wait;
use std::thread::Threads;

/// What a link gives in pieces of 7 bytes, and which of its reads and writes fail.
type Given = (&'static [u8], &'static [u64], &'static [u64]);

/// The words, the links, the accepts that fail, the writes at the end that fail, the status, what is written at the end, and how
/// each link was given back: with its status, and what it has taken.
struct Row {
    words: &'static [&'static str],
    links: &'static [Given],
    accepts: &'static [u64],
    writes: &'static [u64],
    status: u8,
    line: &'static [u8],
    back: &'static [(u8, &'static [u8])],
}

const ONE: &[&str] = &["serve", "--address", "a"];

const MANY: &[&str] = &["serve", "--address=a", "--sessions=1000"];

const LINES: &[u8] = b"do counter(\"x\").add(2); emit counter(\"x\").get();\nseen\nquit\n";

const REPLIES: &[u8] = b"commit 1 ok 2\nseen 1\ndropped\n";

static ROWS: [Row; 10] = [
    Row {
        words: &["serve", "--address", "a", "--sessions", "1"],
        links: &[(LINES, &[], &[])],
        accepts: &[],
        writes: &[],
        status: WHOLE,
        line: b"served 1 sessions 0 faulted commits 1\n",
        back: &[(WHOLE, REPLIES)],
    },
    // A fault of a link ends its own session.
    Row {
        words: ONE,
        links: &[(b"do emit 1;\n", &[0], &[])],
        accepts: &[],
        writes: &[],
        status: WHOLE,
        line: b"served 1 sessions 1 faulted commits 0\n",
        back: &[(READ_FAULT, b"")],
    },
    Row {
        words: ONE,
        links: &[(b"do emit 1;\n", &[], &[0])],
        accepts: &[],
        writes: &[],
        status: WHOLE,
        line: b"served 1 sessions 1 faulted commits 1\n",
        back: &[(WRITE_FAULT, b"")],
    },
    Row {
        words: ONE,
        links: &[(b"", &[], &[])],
        accepts: &[],
        writes: &[],
        status: WHOLE,
        line: b"served 1 sessions 0 faulted commits 0\n",
        back: &[(WHOLE, b"")],
    },
    // The second accept fails: the session of the first link ends, and the line is written.
    Row {
        words: MANY,
        links: &[(b"do emit 1;\n", &[], &[]), (b"do emit 2;\n", &[], &[])],
        accepts: &[1],
        writes: &[],
        status: LISTENER_FAULT,
        line: b"served 1 sessions 0 faulted commits 1\n",
        back: &[(WHOLE, b"commit 1 ok 1\n")],
    },
    Row {
        words: MANY,
        links: &[(b"do emit 1;\n", &[], &[]), (b"do emit 2;\n", &[], &[])],
        accepts: &[1],
        writes: &[1],
        status: LISTENER_FAULT,
        line: b"serve",
        back: &[(WHOLE, b"commit 1 ok 1\n")],
    },
    // The line is written in pieces of 5 bytes: 8 writes, and a flush.
    Row {
        words: ONE,
        links: &[(b"seen\n", &[], &[])],
        accepts: &[],
        writes: &[0],
        status: WRITE_FAULT,
        line: b"",
        back: &[(WHOLE, b"seen 0\n")],
    },
    Row {
        words: ONE,
        links: &[(b"seen\n", &[], &[])],
        accepts: &[],
        writes: &[2],
        status: WRITE_FAULT,
        line: b"served 1 s",
        back: &[(WHOLE, b"seen 0\n")],
    },
    Row {
        words: ONE,
        links: &[(b"seen\n", &[], &[])],
        accepts: &[],
        writes: &[8],
        status: WRITE_FAULT,
        line: b"served 1 sessions 0 faulted commits 0\n",
        back: &[(WHOLE, b"seen 0\n")],
    },
    // The settings are those of the words: of a journal of at most one commit the second isn't made.
    Row {
        words: &["serve", "--limit=1", "--address=a"],
        links: &[(b"do emit 1;\ndo emit 2;\n", &[], &[])],
        accepts: &[],
        writes: &[],
        status: WHOLE,
        line: b"served 1 sessions 0 faulted commits 1\n",
        back: &[(WHOLE, b"commit 1 ok 1\nfull 1\n")],
    },
];

/// The rows, so that the proof of a test doesn't go through them.
fn rows() -> &'static [Row] {
    &ROWS
}

/// The listener of a row.
fn listener_of(alloc: Global, row: &Row) -> Result<MemListener, AllocError> {
    let mut links = MemLinks::new(alloc);
    for (bytes, reads, writes) in row.links {
        links.push(MemLink::new(alloc, bytes, 7, reads, writes)?)?;
    }
    let plan = FaultPlan::new(alloc, row.accepts)?;
    Ok(MemListener::failing(alloc, links, plan))
}

/// Serves the links of a listener as a row's words ask, and answers whether it ends with the row's status, and its line is written
/// at the end.
fn ends_so(
    rt: &(impl Abort + Threads + Wait + Sync),
    alloc: Global,
    row: &Row,
    listener: &mut impl Listener,
) -> bool {
    let source = MemSource::new(alloc, b"0 do emit 1;\n", 5, &[]);
    let (Ok(mut source), Ok(mut sink)) = (source, MemSink::new(alloc, 5, row.writes)) else {
        return false;
    };
    let found = diamond(
        rt,
        alloc,
        row.words,
        &mut source,
        &mut sink,
        &mut NoDisk::new(),
        listener,
    );
    found == row.status && sink.taken() == row.line
}

/// Whether the links were given back so, in their order.
fn gave_back(listener: &MemListener, wanted: &[(u8, &[u8])]) -> bool {
    let back = listener.back().as_slice();
    for (pair, (status, taken)) in back.iter().zip(wanted) {
        if pair.1 != *status || pair.0.sink.taken() != *taken {
            return false;
        }
    }
    back.len() == wanted.len()
}

/// Whether this comes of a row.
fn is_served(rt: &(impl Abort + Threads + Wait + Sync), alloc: Global, row: &Row) -> bool {
    match listener_of(alloc, row) {
        Ok(mut listener) => {
            ends_so(rt, alloc, row, &mut listener) && gave_back(&listener, row.back)
        }
        Err(_) => false,
    }
}

#[test]
fn links_are_served_and_a_line_tells_of_them(rt: HostRuntime) {
    for (number, row) in rows().iter().enumerate() {
        assert!(rt; is_served(&rt, rt.alloc(), row), "row {number}");
    }
}

/// Nobody listens.
static NOBODY: Row = Row {
    words: MANY,
    links: &[],
    accepts: &[],
    writes: &[],
    status: LISTENER_FAULT,
    line: b"served 0 sessions 0 faulted commits 0\n",
    back: &[],
};

#[test]
fn without_a_listener_nothing_is_served(rt: HostRuntime) {
    assert!(rt; ends_so(&rt, rt.alloc(), &NOBODY, &mut NoListener::new()));
}

/// A client that has said its lines.
fn client_of(rt: &HostRuntime, address: Option<SocketAddr>) -> io::Result<TcpStream> {
    let Some(address) = address else {
        return Err(ErrorKind::AddrNotAvailable.into());
    };
    let mut client = TcpStream::connect(rt, address)?;
    client.write_all(LINES)?;
    Ok(client)
}

/// Whether a client is told the replies.
fn is_told(alloc: Global, client: io::Result<TcpStream>) -> bool {
    match client {
        Ok(client) => match io::read_to_string(alloc, client) {
            Ok(told) => told.as_bytes() == REPLIES,
            Err(_) => false,
        },
        Err(_) => false,
    }
}

/// A session of those lines, whose link is none of these.
static LOOPBACK: Row = Row {
    words: ONE,
    links: &[],
    accepts: &[],
    writes: &[],
    status: WHOLE,
    line: b"served 1 sessions 0 faulted commits 1\n",
    back: &[],
};

#[test]
fn a_session_over_the_loopback_is_served(rt: HostRuntime) {
    let mut listener = TcpListening::bind(&AlertNet::over(&rt), &rt, "127.0.0.1:0");
    let client = client_of(&rt, listener.address());
    // Where the client didn't come, no accept would return.
    assert!(rt; client.is_ok());
    assert!(rt; ends_so(&rt, rt.alloc(), &LOOPBACK, &mut listener));
    assert!(rt; is_told(rt.alloc(), client));
}
