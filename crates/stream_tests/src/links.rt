//! Tests of listeners, and of links over connections.

ghost use Rattle.std.specs.Prelude.{◌<◌, Some};

use crate::lines::is_next;
use crate::moves::{Move, go_all};
use dio_core::{
    Accepted, Connection, End, FaultPlan, Got, Listener, MemLink, MemLinks, MemListener, Sink,
    Source, TcpLink, TcpListening, Took, write_all,
};
use std::alloc::{AllocError, Global};
use std::cell::Cell;
use std::io;
use std::io::{ErrorKind, Read, Write};
use std::net::{IpAddr, Ipv4Addr, OpenListener, Shutdown, SocketAddr, TcpListener, TcpStream};
use std::time::{Clock, Duration};

/// Whether the next link that is accepted begins with this byte.
fn accepts<N: Listener>(listener: &mut N, byte: u8) -> bool {
    let mut buf = [0];
    match listener.accept() {
        Accepted::Link(mut link) => {
            let got = link.read(&mut buf);
            got == Got::Bytes(1) && buf[0] == byte && listener.give_back(link, byte).is_ok()
        }
        _ => false,
    }
}

fn ends<N: Listener>(listener: &mut N) -> bool {
    matches!(listener.accept(), Accepted::NoMore)
}

fn fails<N: Listener>(listener: &mut N) -> bool {
    let before = listener.accept_faults();
    let failed = matches!(listener.accept(), Accepted::Failed);
    failed && listener.accept_faults() == before.saturating_add(1)
}

fn two_links(alloc: Global) -> Result<MemLinks, AllocError> {
    let mut links = MemLinks::new(alloc);
    links.push(MemLink::new(alloc, b"a", 1, &[], &[])?)?;
    links.push(MemLink::new(alloc, b"b", 1, &[], &[])?)?;
    Ok(links)
}

/// The statuses with which links were given back, in their order, are these.
fn gave_back(listener: &MemListener, statuses: &[u8]) -> bool {
    let back = listener.back().as_slice();
    back.len() == statuses.len()
        && back
            .iter()
            .zip(statuses)
            .all(|(pair, status)| pair.1 == *status)
}

/// Whether a listener's two links come in order, around an accept that fails if one is to, and are given back.
fn come_in_order(listener: &mut MemListener, fails_between: bool) -> bool {
    accepts(listener, b'a')
        && (!fails_between || fails(listener))
        && accepts(listener, b'b')
        && ends(listener)
        && gave_back(listener, b"ab")
}

#[test]
fn links_in_memory_come_in_order_and_are_given_back(rt: HostRuntime) {
    match two_links(rt.alloc()) {
        Ok(links) => {
            let mut listener = MemListener::new(rt.alloc(), links);
            assert!(rt; come_in_order(&mut listener, false) && listener.accept_faults() == 0);
        }
        Err(_) => assert!(rt; false),
    }
}

#[test]
fn an_accept_that_is_to_fail_leaves_the_links(rt: HostRuntime) {
    match (two_links(rt.alloc()), FaultPlan::new(rt.alloc(), &[1])) {
        (Ok(links), Ok(plan)) => {
            let mut listener = MemListener::failing(rt.alloc(), links, plan);
            assert!(rt; come_in_order(&mut listener, true));
        }
        _ => assert!(rt; false),
    }
}

/// A connection in memory, which tells what it holds, what it has passed on, and whether its sending has ended.
#[derive(Drop)]
struct Wire {
    link: MemLink,
    is_shut: bool,
}

impl Connection for Wire {
    ghost coming = { λ w. Some w.link.source.left };

    ghost sent = { λ w. Some w.link.sink.taken };

    ghost passed = { λ w. Some w.link.sink.passed };

    ghost is_shut = { λ w. Some w.is_shut };

    fn receive(&mut self, buf: &mut [u8]) -> io::Result<usize> {
        match self.link.read(buf) {
            Got::Bytes(count) => Ok(count),
            Got::End => Ok(0),
            Got::Failed => Err(ErrorKind::BrokenPipe.into()),
        }
    }

    fn send(&mut self, bytes: &[u8]) -> io::Result<usize> {
        if self.is_shut {
            return Err(ErrorKind::BrokenPipe.into());
        }
        if bytes.is_empty() {
            return Ok(0);
        }
        match self.link.write(bytes) {
            Took::Bytes(count) => Ok(count),
            Took::Failed => Err(ErrorKind::BrokenPipe.into()),
        }
    }

    fn flush(&mut self) -> io::Result<()> {
        if self.link.flush() {
            Ok(())
        } else {
            Err(ErrorKind::BrokenPipe.into())
        }
    }

    fn shut(&mut self) {
        self.is_shut = true;
    }
}

/// A link over a connection that gives these bytes, so many at a time, and fails at these reads and writes.
fn wired(
    alloc: Global,
    bytes: &[u8],
    piece: usize,
    reads: &[u64],
    writes: &[u64],
) -> Result<TcpLink<Wire>, AllocError>
    requires { 0 < piece }
{
    let link = MemLink::new(alloc, bytes, piece, reads, writes)?;
    Ok(TcpLink::new(Wire {
        link,
        is_shut: false,
    }))
}

static GIVES: [Move; 5] = [
    Move::Breaks,
    Move::Next(b"b"),
    Move::Next(b"cd"),
    Move::Ends,
    Move::Faults(1, 0),
];

static SENDS: [Move; 6] = [
    Move::Writes(b"abcde", true),
    Move::Flushes(true),
    Move::Writes(b"f", false),
    Move::Writes(b"g", true),
    Move::Flushes(false),
    Move::Faults(0, 2),
];

static IS_ENDED: [Move; 6] = [
    Move::End,
    Move::End,
    Move::Breaks,
    Move::Writes(b"a", false),
    Move::Flushes(false),
    Move::Faults(1, 2),
];

// The lists, so that the proof of a test doesn't go through them.

fn gives() -> &'static [Move] {
    &GIVES
}

fn sends() -> &'static [Move] {
    &SENDS
}

fn is_ended() -> &'static [Move] {
    &IS_ENDED
}

#[test]
fn a_link_over_a_connection_counts_its_errors_and_fails_when_it_is_ended(rt: HostRuntime) {
    let alloc = rt.alloc();
    assert!(rt; go_all(alloc, wired(alloc, b"ab\ncd", 1, &[1], &[]), gives()));
    assert!(rt; go_all(alloc, wired(alloc, b"", 2, &[], &[4, 6]), sends()));
    assert!(rt; go_all(alloc, wired(alloc, b"ab", 1, &[], &[]), is_ended()));
}

#[test]
fn an_address_that_can_not_be_bound_fails_at_each_accept(rt: HostRuntime) {
    let mut listener = TcpListening::bind(&rt, &rt, "no port");
    assert!(rt; listener.address().is_none());
    assert!(rt; fails(&mut listener));
    assert!(rt; fails(&mut listener));
}

/// A listener of which so many accepts fail, and then each gives a connection.
#[derive(Drop)]
struct Troubled {
    alloc: Global,
    troubles: Cell<u64>,
}

impl OpenListener for Troubled {
    type Stream = Wire;

    fn accept(&self) -> io::Result<(Wire, SocketAddr)> {
        let left = self.troubles.get();
        if left > 0 {
            self.troubles.set(left - 1);
            return Err(ErrorKind::ConnectionAborted.into());
        }
        let link = MemLink::new(self.alloc, b"a", 1, &[], &[])?;
        Ok((
            Wire {
                link,
                is_shut: false,
            },
            SocketAddr::new(IpAddr::V4(Ipv4Addr::LOCALHOST), 1),
        ))
    }
}

/// A clock that counts the pauses.
#[derive(Drop)]
struct Pauses {
    taken: Cell<u64>,
}

impl Clock for Pauses {
    fn monotonic(&self) -> io::Result<Duration> {
        Ok(Duration::ZERO)
    }

    fn since_1970(&self) -> io::Result<Duration> {
        Ok(Duration::ZERO)
    }

    fn sleep(&self, _duration: Duration) {
        self.taken.set(self.taken.get().saturating_add(1));
    }
}

#[test]
fn an_accept_that_fails_in_passing_is_tried_again(rt: HostRuntime) {
    let rows: [(u64, bool, u64); 4] = [
        (0, true, 0),
        (3, true, 3),
        (599, true, 599),
        (600, false, 600),
    ];
    for (troubles, comes, pauses) in rows {
        let clock = Pauses {
            taken: Cell::new(0),
        };
        let troubled = Troubled {
            alloc: rt.alloc(),
            troubles: Cell::new(troubles),
        };
        let mut listener = TcpListening::new(troubled, &clock);
        let answered = if comes {
            accepts(&mut listener, b'a')
        } else {
            fails(&mut listener)
        };
        assert!(rt; answered && clock.taken.get() == pauses);
    }
}

/// Whether what a link hears is this line, and it answers with that one and is ended.
fn answers<K: End>(alloc: Global, link: &mut K, line: &[u8], reply: &[u8]) -> bool {
    let heard = is_next(alloc, link, line) && write_all(link, reply) && link.flush();
    link.end();
    heard && link.read_faults() == 0 && link.write_faults() == 0
}

/// Whether the next link hears "seen" and answers it, and is given back.
fn answers_next<N: Listener>(alloc: Global, listener: &mut N) -> bool {
    match listener.accept() {
        Accepted::Link(mut link) => {
            answers(alloc, &mut link, b"seen", b"seen 0\n") && listener.give_back(link, 0).is_ok()
        }
        _ => false,
    }
}

/// A client that says this to a listener, and then something else so many times, and no more.
fn client_of(
    rt: &HostRuntime,
    address: Option<SocketAddr>,
    others: usize,
) -> io::Result<TcpStream> {
    let Some(address) = address else {
        return Err(ErrorKind::AddrNotAvailable.into());
    };
    let mut client = TcpStream::connect(rt, address)?;
    client.write_all(b"seen\n")?;
    for _ in 0..others {
        client.write_all(b"another\n")?;
    }
    if others > 0 {
        client.shutdown(Shutdown::Write)?;
    }
    Ok(client)
}

/// Whether a client is told this, and no more.
fn is_told(alloc: Global, client: io::Result<TcpStream>, wanted: &str) -> bool {
    match client {
        Ok(client) => {
            matches!(&io::read_to_string(alloc, client), Ok(reply) if reply.as_str() == wanted)
        }
        Err(_) => false,
    }
}

/// One line, and one behind which many are left unread when the link is ended.
#[test]
fn a_link_over_the_loopback_is_heard_and_answered(rt: HostRuntime) {
    for others in [0, 2_000] {
        let mut listener = TcpListening::bind(&rt, &rt, "127.0.0.1:0");
        let client = client_of(&rt, listener.address(), others);
        assert!(rt; answers_next(rt.alloc(), &mut listener));
        assert!(rt; is_told(rt.alloc(), client, "seen 0\n"));
        assert!(rt; listener.accept_faults() == 0);
    }
}

/// Whether a stream keeps small pieces back, and whether it does once a link is made of it.
fn keeps_pieces_back(rt: &HostRuntime) -> io::Result<(bool, bool)> {
    let listener = TcpListener::bind(rt, "127.0.0.1:0")?;
    let stream = TcpStream::connect(rt, listener.local_addr()?)?;
    let same = stream.try_clone()?;
    let before = same.nodelay()?;
    let link = TcpLink::new(stream);
    Ok((!before, link.read_faults() > 0 || !same.nodelay()?))
}

#[test]
fn a_link_keeps_no_small_piece_back(rt: HostRuntime) {
    assert!(rt; matches!(keeps_pieces_back(&rt), Ok((true, false))));
}

#[test]
fn behind_a_listener_that_is_closed_nobody_is_heard(rt: HostRuntime) {
    let mut listener = TcpListening::bind(&rt, &rt, "127.0.0.1:0");
    let address = listener.address();
    listener.close();
    assert!(rt; address.is_some() && client_of(&rt, address, 0).is_err());
    assert!(rt; listener.address().is_none());
    assert!(rt; fails(&mut listener));
}
