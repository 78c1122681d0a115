//! A connection that looks for bytes before its thread sleeps.

ghost use Rattle.std.specs.Prelude.{◌≤◌, ◌<◌, length, IfOk, IfSome};

use dio_core::Connection;
use std::io;
use std::io::{ErrorKind, Read, Write};
use std::net::{OpenStream, Shutdown};
use std::os::fd::{AsRawFd, RawFd};
use std::thread::yield_now;
use std::time::Duration;

/// How often a connection is looked at, and other threads run in between, before the thread sleeps until bytes come.
const LOOKS: u32 = 20;

/// A connection over another one, which is looked at some times before the thread sleeps until bytes come. It tells nothing.
#[derive(Drop)]
pub struct AlertStream<S> {
    pub(crate) stream: S,
}

/// What comes within some looks, none of which waits.
fn received_in_looks<S: Connection>(stream: &mut S, buf: &mut [u8]) -> Option<io::Result<usize>>
    requires { 0 < length buf.old }
    ensures { IfSome result (λ received. IfOk received (λ count. count ≤ length buf.new)) }
{
    for _ in 0..LOOKS {
        match stream.receive(buf) {
            Err(error) if error.kind() == ErrorKind::WouldBlock => yield_now(),
            received => return Some(received),
        }
    }
    None
}

/// What comes soon. The connection waits for what comes again behind it.
fn received_soon<S: Connection + OpenStream>(
    stream: &mut S,
    buf: &mut [u8],
) -> Option<io::Result<usize>>
    requires { 0 < length buf.old }
    ensures { IfSome result (λ received. IfOk received (λ count. count ≤ length buf.new)) }
{
    stream.set_nonblocking(true).ok()?;
    let received = received_in_looks(stream, buf);
    let _ = stream.set_nonblocking(false);
    received
}

impl<S: Connection + OpenStream> Connection for AlertStream<S> {
    ghost use Rattle.std.specs.Prelude.{None};

    ghost coming = { λ _. None };

    ghost sent = { λ _. None };

    fn receive(&mut self, buf: &mut [u8]) -> io::Result<usize> {
        match received_soon(&mut self.stream, buf) {
            Some(received) => received,
            None => self.stream.receive(buf),
        }
    }

    fn send(&mut self, bytes: &[u8]) -> io::Result<usize> {
        self.stream.send(bytes)
    }

    fn flush(&mut self) -> io::Result<()> {
        self.stream.flush()
    }

    fn shut(&mut self) {
        self.stream.shut();
    }

    fn hurry(&self) {
        self.stream.hurry();
    }

    fn finish(&self) {
        self.stream.finish();
    }
}

impl<S: Read> Read for AlertStream<S> {
    fn read(&mut self, buf: &mut [u8]) -> io::Result<usize> {
        self.stream.read(buf)
    }
}

impl<S: Write> Write for AlertStream<S> {
    fn write(&mut self, bytes: &[u8]) -> io::Result<usize> {
        self.stream.write(bytes)
    }

    fn flush(&mut self) -> io::Result<()> {
        self.stream.flush()
    }
}

impl<S: OpenStream> OpenStream for AlertStream<S> {
    fn shutdown(&self, how: Shutdown) -> io::Result<()> {
        self.stream.shutdown(how)
    }

    fn set_nodelay(&self, nodelay: bool) -> io::Result<()> {
        self.stream.set_nodelay(nodelay)
    }

    fn set_nonblocking(&self, nonblocking: bool) -> io::Result<()> {
        self.stream.set_nonblocking(nonblocking)
    }

    fn set_read_timeout(&self, dur: Option<Duration>) -> io::Result<()> {
        self.stream.set_read_timeout(dur)
    }
}

impl<S: AsRawFd> AsRawFd for AlertStream<S> {
    fn as_raw_fd(&self) -> RawFd {
        self.stream.as_raw_fd()
    }
}
