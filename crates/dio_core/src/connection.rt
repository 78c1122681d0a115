//! A connection, as the adapters over it see it: it tells its bytes, what it has passed on, and whether its sending has ended.
//! What the adapters make of these answers is proved over any connection.
//!
//! Of the system's own connections no clause says what they send and when. They are connections that don't tell, each call of
//! which but `finish` is one call of std's; that these do what is asked of them here is tested.

ghost use Rattle.std.specs.Prelude.{◌≡◌, ℕ, ◌<◌, List, Option, None, Bool, length, IfSome, IsTrue, OnOk};
ghost use Rattle.dio_core.specs.Connections.{Receives, Sends};
ghost use Rattle.dio_core.specs.Sinks.{PassesOn, IsPassedOn};

use std::io;
use std::io::{Read, Write};
use std::net::{Shutdown, TcpStream};
use std::time::Duration;

/// How often a connection is read at its end, at most.
const LAST_READS: u32 = 2_048;

/// How many bytes are dropped by one read at the end of a connection, at most: 16 mebibytes by all of them.
const DROPPED: usize = 8_192;

/// How many seconds one of the reads at the end waits for bytes.
const LAST_SECONDS: u64 = 1;

/// Two streams of bytes, one in and one out, of which neither disturbs the other.
pub trait Connection {
    /// The bytes that are still to come, or None where the connection doesn't tell.
    ghost coming: { Self → Option (List ℕ) };

    /// The bytes sent, or None where the connection doesn't tell.
    ghost sent: { Self → Option (List ℕ) };

    /// Of these the bytes that nothing keeps back any more, or None where the connection doesn't tell.
    ghost passed: { Self → Option (List ℕ) } = { λ _. None };

    /// Whether the sending has ended, or None where the connection doesn't tell.
    ghost is_shut: { Self → Option Bool } = { λ _. None };

    /// Receives the next bytes into the beginning of `buf`, and none at the end.
    fn receive(&mut self, buf: &mut [u8]) -> io::Result<usize>
        requires { 0 < length buf.old }
        ensures receives { Receives result buf.new (coming self.old) (coming self.new) }
        ensures same { sent self.new ≡ sent self.old }
        ensures passed { passed self.new ≡ passed self.old };

    /// Sends some of the bytes, from the first on.
    fn send(&mut self, bytes: &[u8]) -> io::Result<usize>
        ensures sends { Sends result bytes.now (sent self.old) (sent self.new) }
        ensures same { coming self.new ≡ coming self.old }
        ensures passes { PassesOn (sent self.new) (passed self.old) (passed self.new) };

    /// Has all leave that was sent and is still kept back.
    fn flush(&mut self) -> io::Result<()>
        ensures flushed { OnOk result (IsPassedOn (sent self.new) (passed self.new)) }
        ensures passes { PassesOn (sent self.new) (passed self.old) (passed self.new) }
        ensures coming { coming self.new ≡ coming self.old }
        ensures sent { sent self.new ≡ sent self.old };

    /// Ends the sending: the other side finds the end behind all that was sent.
    fn shut(&mut self)
        ensures shut { IfSome (is_shut self.new) IsTrue }
        ensures coming { coming self.new ≡ coming self.old }
        ensures sent { sent self.new ≡ sent self.old }
        ensures passed { passed self.new ≡ passed self.old };

    /// Has each piece leave as it is sent, where a connection would keep a small one back for the next.
    fn hurry(&self) {}

    /// Lets what still comes run dry for a while, so that all that was sent reaches the other side: what is let go of with bytes
    /// unread would be cut off.
    fn finish(&self) {}
}

/// std's streams over TCP tell nothing.
impl Connection for TcpStream {
    ghost use Rattle.std.specs.Prelude.{None};

    ghost coming = { λ _. None };

    ghost sent = { λ _. None };

    fn receive(&mut self, buf: &mut [u8]) -> io::Result<usize> {
        self.read(buf)
    }

    fn send(&mut self, bytes: &[u8]) -> io::Result<usize> {
        self.write(bytes)
    }

    fn flush(&mut self) -> io::Result<()> {
        Write::flush(self)
    }

    fn shut(&mut self) {
        let _ = self.shutdown(Shutdown::Write);
    }

    fn hurry(&self) {
        let _ = self.set_nodelay(true);
    }

    fn finish(&self) {
        let _ = self.set_read_timeout(Some(Duration::from_secs(LAST_SECONDS)));
        let mut stream = self;
        run_dry(&mut stream);
    }
}

/// Reads and drops what a reader still gives, up to its end or a fault, by a bounded number of reads.
fn run_dry<R: Read>(reader: &mut R) {
    let mut dropped = [0; DROPPED];
    for _ in 0..LAST_READS {
        match reader.read(&mut dropped) {
            Ok(count) if count > 0 => {}
            _ => return,
        }
    }
}
