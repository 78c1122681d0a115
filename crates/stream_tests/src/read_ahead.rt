//! Tests of links that read ahead, over links in memory and over the loopback.

ghost use Rattle.std.specs.Prelude.{◌<◌, length};

use crate::lines::{breaks, ends, is_next};
use crate::moves::{Move, all_go, go_all};
use dio_core::{
    Accepted, End, FaultPlan, Got, Listener, MemLink, MemLinks, MemListener, Sink, Source,
    TcpListening, write_all,
};
use link_buffer::{BufferedLink, BufferedListening, READ_AHEAD};
use std::alloc::{AllocError, Global};
use std::io;
use std::io::{ErrorKind, Write};
use std::net::{SocketAddr, TcpStream};

/// The bytes of a session: short lines, an empty one, two of 2,600 bytes, and one that lacks its newline.
fn session(alloc: Global) -> Result<Vec<u8>, AllocError> {
    let mut bytes = Vec::from_slice(alloc, b"open\n\n")?;
    for _ in 0..2 {
        for _ in 0..200 {
            bytes.extend_from_slice(b"thirteen byte")?;
        }
        bytes.push(b'\n')?;
    }
    bytes.extend_from_slice(b"get a\nquit")?;
    Ok(bytes)
}

/// Whether the lines of a session are read from these bytes.
fn reads_session<S: Source>(alloc: Global, source: &mut S, bytes: &[u8]) -> bool
    requires { 2606 < length bytes.now }
{
    is_next(alloc, source, b"open")
        && is_next(alloc, source, b"")
        && is_next(alloc, source, &bytes[6..2606])
        && is_next(alloc, source, &bytes[6..2606])
        && is_next(alloc, source, b"get a")
        && is_next(alloc, source, b"quit")
        && ends(alloc, source)
        && ends(alloc, source)
        && source.read_faults() == 0
}

/// A link that reads ahead over one in memory, which gives so many bytes at a time, and of which these reads and writes fail.
fn ahead(
    alloc: Global,
    bytes: &[u8],
    piece: usize,
    reads: &[u64],
    writes: &[u64],
) -> Result<BufferedLink<MemLink>, AllocError>
    requires { 0 < piece }
{
    Ok(BufferedLink::new(MemLink::new(alloc, bytes, piece, reads, writes)?))
}

/// Whether a session is read where so many bytes are given at a time.
fn is_read(alloc: Global, bytes: &[u8], piece: usize) -> bool {
    if bytes.len() != 5218 {
        return false;
    }
    match ahead(alloc, bytes, piece.max(1), &[], &[]) {
        Ok(mut link) => reads_session(alloc, &mut link, bytes),
        Err(_) => false,
    }
}

#[test]
fn the_lines_of_a_session_are_the_same_in_pieces_of_any_size(rt: HostRuntime) {
    let bytes = session(rt.alloc());
    for piece in [1, 3, 1024, READ_AHEAD] {
        assert!(rt; matches!(&bytes, Ok(bytes) if is_read(rt.alloc(), bytes.as_slice(), piece)));
    }
}

/// Whether moves go as they should, with this held at their end.
fn hold(alloc: Global, link: &mut BufferedLink<MemLink>, moves: &[Move], held: &[u8]) -> bool {
    all_go(alloc, link, moves) && link.held() == held
}

/// A link, the moves that are made with it, and what it holds between two lists of them and at the end.
struct Row {
    bytes: &'static [u8],
    piece: usize,
    reads: &'static [u64],
    first: &'static [Move],
    middle: &'static [u8],
    second: &'static [Move],
    end: &'static [u8],
}

static ROWS: [Row; 4] = [
    // A buffer of any size is filled from what is held.
    Row {
        bytes: b"abcde",
        piece: 4,
        reads: &[],
        first: &[Move::Gives(3, *b"abc")],
        middle: b"d",
        second: &[
            Move::Gives(1, *b"d.."),
            Move::Gives(1, *b"e.."),
            Move::GivesEnd,
        ],
        end: b"",
    },
    // What is held is given up to a newline. Where nothing is held a byte is given.
    Row {
        bytes: b"a\nbcdef\n\n",
        piece: 6,
        reads: &[],
        first: &[
            Move::GivesThrough(1, *b"a.."),
            Move::GivesThrough(1, *b"\n.."),
            Move::GivesThrough(3, *b"bcd"),
        ],
        middle: b"e",
        second: &[Move::Next(b"ef")],
        end: b"\n",
    },
    // A line is at hand where its newline is held and it fits.
    Row {
        bytes: b"a\nbcd\n\nefgh\nij",
        piece: 100,
        reads: &[1],
        first: &[
            Move::Ahead(None),
            Move::Next(b"a"),
            Move::Ahead(Some(b"bcd")),
        ],
        middle: b"\nefgh\nij",
        second: &[
            Move::Ahead(Some(b"")),
            Move::Ahead(None),
            Move::Next(b"efgh"),
            Move::Ahead(None),
            Move::Faults(0, 0),
        ],
        end: b"ij",
    },
    // A read fault is answered once, behind what is held.
    Row {
        bytes: b"ab\ncd\n",
        piece: 4,
        reads: &[1],
        first: &[Move::Next(b"ab"), Move::Faults(0, 0)],
        middle: b"c",
        second: &[
            Move::Breaks,
            Move::Faults(1, 0),
            Move::Next(b"d"),
            Move::Ends,
            Move::Faults(1, 0),
        ],
        end: b"",
    },
];

/// The rows, so that the proof of a test doesn't go through them.
fn rows() -> &'static [Row] {
    &ROWS
}

/// Whether a row goes as it should.
fn holds(alloc: Global, row: &Row) -> bool {
    match ahead(alloc, row.bytes, row.piece.max(1), row.reads, &[]) {
        Ok(mut link) => {
            link.held().is_empty()
                && hold(alloc, &mut link, row.first, row.middle)
                && hold(alloc, &mut link, row.second, row.end)
        }
        Err(_) => false,
    }
}

#[test]
fn what_is_read_ahead_is_held_and_given(rt: HostRuntime) {
    for row in rows() {
        assert!(rt; holds(rt.alloc(), row));
    }
}

#[test]
fn links_that_read_nothing_ahead_have_no_line_at_hand(rt: HostRuntime) {
    let link = MemLink::new(rt.alloc(), b"a\nb\n", 100, &[], &[]);
    let moves = [Move::Next(b"a"), Move::Ahead(None), Move::Next(b"b")];
    assert!(rt; go_all(rt.alloc(), link, &moves));
}

static WRITES: [Move; 7] = [
    Move::Next(b"a"),
    Move::Writes(b"done", true),
    Move::Flushes(true),
    Move::Writes(b"lost", false),
    Move::Writes(b"kept", true),
    Move::Faults(0, 1),
    Move::End,
];

fn writes() -> &'static [Move] {
    &WRITES
}

/// Whether writes and their faults pass through a link to the one below.
fn pass_through(alloc: Global, mut link: BufferedLink<MemLink>) -> bool {
    let written = all_go(alloc, &mut link, writes()) && is_next(alloc, &mut link, b"b");
    let below = link.into_inner();
    written
        && below.sink.taken() == b"donekept".as_slice()
        && below.sink.passed() == b"done".as_slice()
}

#[test]
fn writes_and_their_faults_pass_through(rt: HostRuntime) {
    match ahead(rt.alloc(), b"a\nb\n", 4, &[], &[2]) {
        Ok(link) => assert!(rt; pass_through(rt.alloc(), link)),
        Err(_) => assert!(rt; false),
    }
}

/// Whether the next link that is accepted begins with this line, and is given back with a status once it was answered.
fn serves<N: Listener>(alloc: Global, listener: &mut N, line: &[u8], status: u8) -> bool {
    match listener.accept() {
        Accepted::Link(mut link) => {
            is_next(alloc, &mut link, line)
                && write_all(&mut link, line)
                && listener.give_back(link, status).is_ok()
        }
        _ => false,
    }
}

fn two_links(alloc: Global) -> Result<MemLinks, AllocError> {
    let mut links = MemLinks::new(alloc);
    links.push(MemLink::new(alloc, b"one\nmore", 4096, &[], &[])?)?;
    links.push(MemLink::new(alloc, b"two\n", 1, &[], &[])?)?;
    Ok(links)
}

/// Whether what was given back is these lines that were written, each with its status.
fn gave_back(listener: &MemListener, wanted: &[(&[u8], u8)]) -> bool {
    let back = listener.back().as_slice();
    back.len() == wanted.len()
        && back.iter().zip(wanted).all(|(pair, want)| pair.0.sink.taken() == want.0
            && pair.1 == want.1)
}

/// Whether the links below a listener come in order, and are given back with their statuses.
fn come_in_order(alloc: Global, below: MemListener) -> bool {
    let mut listener = BufferedListening::new(below);
    serves(alloc, &mut listener, b"one", 3)
        && serves(alloc, &mut listener, b"two", 0)
        && matches!(listener.accept(), Accepted::NoMore)
        && gave_back(&listener.below, &[(b"one", 3), (b"two", 0)])
        && listener.accept_faults() == 0
}

#[test]
fn the_links_below_are_given_back_with_their_statuses(rt: HostRuntime) {
    match two_links(rt.alloc()) {
        Ok(links) => {
            assert!(rt; come_in_order(rt.alloc(), MemListener::new(rt.alloc(), links)));
        }
        Err(_) => assert!(rt; false),
    }
}

/// Whether an accept that fails is counted, and leaves the links.
fn leaves_the_links(alloc: Global, below: MemListener) -> bool {
    let mut listener = BufferedListening::new(below);
    matches!(listener.accept(), Accepted::Failed)
        && listener.accept_faults() == 1
        && serves(alloc, &mut listener, b"one", 0)
        && listener.accept_faults() == 1
}

#[test]
fn an_accept_that_fails_is_counted_and_leaves_the_links(rt: HostRuntime) {
    match (two_links(rt.alloc()), FaultPlan::new(rt.alloc(), &[0])) {
        (Ok(links), Ok(plan)) => {
            let below = MemListener::failing(rt.alloc(), links, plan);
            assert!(rt; leaves_the_links(rt.alloc(), below));
        }
        _ => assert!(rt; false),
    }
}

/// Whether a link hears both lines of a client, of which the second was read ahead when the link is ended, and then fails.
fn hears_both<K: End>(alloc: Global, link: &mut K) -> bool {
    let first = is_next(alloc, link, b"one");
    link.end();
    first && is_next(alloc, link, b"two") && breaks(alloc, link) && link.read_faults() == 1
}

/// A client that has said two lines.
fn client_of(rt: &HostRuntime, address: Option<SocketAddr>) -> io::Result<TcpStream> {
    let Some(address) = address else {
        return Err(ErrorKind::AddrNotAvailable.into());
    };
    let mut client = TcpStream::connect(rt, address)?;
    client.write_all(b"one\ntwo\n")?;
    Ok(client)
}

/// Whether the next link hears both lines, and is given back.
fn hears_next<N: Listener>(alloc: Global, listener: &mut N) -> bool {
    match listener.accept() {
        Accepted::Link(mut link) => {
            hears_both(alloc, &mut link) && listener.give_back(link, 0).is_ok()
        }
        _ => false,
    }
}

#[test]
fn what_was_read_ahead_over_the_loopback_outlives_the_end(rt: HostRuntime) {
    let tcp = TcpListening::bind(&rt, &rt, "127.0.0.1:0");
    let client = client_of(&rt, tcp.address());
    let mut listener = BufferedListening::new(tcp);
    assert!(rt; client.is_ok() && hears_next(rt.alloc(), &mut listener));
    assert!(rt; listener.accept_faults() == 0);
}
