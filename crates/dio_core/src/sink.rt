//! Where bytes go: any sink, and the one over a connection. Contracts see the bytes that a sink has taken, where it tells them.
//!
//! A writer of std tells nothing of its flushes; so the sink is one over any connection, and that a flush isn't left out is proved
//! over those that tell. The process's own streams tell nothing.

ghost use Rattle.std.specs.Prelude.{◌≡◌, [], ℕ, ◌<◌, List, Option, Some, length, not};
ghost use Rattle.std.specs.Bool.{OnTrue};
ghost use Rattle.dio_core.specs.Counts.{IsCounted};
ghost use Rattle.dio_core.specs.Sinks.{with_more, Takes, TakesPrefix, write_failed, PassesOn, IsPassedOn};
ghost use Rattle.dio_core.specs.Links.{Incoming, no_source, outgoing};

use crate::connection::Connection;
use crate::count::Count;
use std::io;
use std::io::Write;
use std::marker::Model;
use std::snapshot::Snapshot;

/// What a write took.
#[derive(Clone, Copy, Debug, PartialEq, Eq)]
pub enum Took {
    /// So many bytes, at least one, from the first on.
    Bytes(usize),
    /// Nothing, for a fault.
    Failed,
}

/// A stream of bytes that is written at its end.
pub trait Sink {
    /// The bytes taken, or None where the sink doesn't tell.
    ghost taken: { Self → Option (List ℕ) };

    /// Of these the bytes that have been passed on, or None where the sink doesn't tell.
    ghost passed: { Self → Option (List ℕ) };

    /// How many writes and flushes have failed, up to the last value of a u64.
    ghost write_faults: { Self → ℕ };

    /// What the object tells as a source, where it is one too. No write and no flush changes it.
    ghost unread: { Self → Incoming };

    /// Takes some of the bytes, from the first on.
    fn write(&mut self, bytes: &[u8]) -> Took
        requires { 0 < length bytes.now }
        ensures takes { Takes result bytes.now (taken self.old) (taken self.new) }
        ensures passes { PassesOn (taken self.new) (passed self.old) (passed self.new) }
        ensures unread { unread self.new ≡ unread self.old }
        ensures counted { IsCounted (write_failed result) (write_faults self.old) (write_faults self.new) };

    /// Passes on what was taken and is still held back. `false` is a fault.
    fn flush(&mut self) -> bool
        ensures flushed { OnTrue result (IsPassedOn (taken self.new) (passed self.new)) }
        ensures same { taken self.new ≡ taken self.old }
        ensures passes { PassesOn (taken self.new) (passed self.old) (passed self.new) }
        ensures unread { unread self.new ≡ unread self.old }
        ensures counted { IsCounted (not result) (write_faults self.old) (write_faults self.new) };

    /// How many writes and flushes have failed.
    fn write_faults(&self) -> u64
        ensures { result ≡ write_faults self.now };
}

/// Writes all of the bytes, or as many as the sink takes before it fails. `false` is a fault of the sink.
#[inline(always)]
pub fn write_all<W: Sink>(sink: &mut W, bytes: &[u8]) -> bool
    ensures all { OnTrue result (W.taken sink.new ≡ with_more (W.taken sink.old) bytes.now) }

    // What was taken before a fault is a prefix of the bytes.
    ensures prefix { TakesPrefix bytes.now (W.taken sink.old) (W.taken sink.new) }
    ensures passes { PassesOn (W.taken sink.new) (W.passed sink.old) (W.passed sink.new) }
    ensures unread { W.unread sink.new ≡ W.unread sink.old }
    ensures counted { IsCounted (not result) (W.write_faults sink.old) (W.write_faults sink.new) }
{
    let mut done = 0;
    while done < bytes.len() {
        match sink.write(&bytes[done..]) {
            Took::Bytes(count) => done += count,
            Took::Failed => return false,
        }
    }
    true
}

/// Sends some of the bytes. Where none could be sent that is a fault, which is counted.
pub(crate) fn send_counted<C: Connection>(
    connection: &mut C,
    bytes: &[u8],
    faults: &mut Count,
) -> Took
    requires { 0 < length bytes.now }
    ensures takes { Takes result bytes.now (C.sent connection.old) (C.sent connection.new) }
    ensures passes { PassesOn (C.sent connection.new) (C.passed connection.old) (C.passed connection.new) }
    ensures coming { C.coming connection.new ≡ C.coming connection.old }
    ensures counted { IsCounted (write_failed result) faults.old faults.new }
{
    match connection.send(bytes) {
        Ok(count) if count > 0 => Took::Bytes(count),
        _ => {
            faults.add_one();
            Took::Failed
        }
    }
}

/// Has a connection pass on what it keeps back. Where it can't that is a fault, which is counted.
pub(crate) fn flush_counted<C: Connection>(connection: &mut C, faults: &mut Count) -> bool
    ensures flushed { OnTrue result (IsPassedOn (C.sent connection.new) (C.passed connection.new)) }
    ensures passes { PassesOn (C.sent connection.new) (C.passed connection.old) (C.passed connection.new) }
    ensures coming { C.coming connection.new ≡ C.coming connection.old }
    ensures sent { C.sent connection.new ≡ C.sent connection.old }
    ensures counted { IsCounted (not result) faults.old faults.new }
{
    let is_flushed = connection.flush().is_ok();
    if !is_flushed {
        faults.add_one();
    }
    is_flushed
}

/// A sink over a connection, which holds nothing back itself. It tells what the connection tells, and counts each error.
#[derive(Drop)]
pub struct StreamSink<C: Connection> {
    stream: C,
    faults: Count,
}

impl<C: Connection> Model for StreamSink<C> {
    ghost use Rattle.dio_core.specs.Links.{Outgoing, outgoing};

    ghost Value = { Outgoing };

    ghost view = { λ s. outgoing (C.sent s.stream) (C.passed s.stream) s.faults };
}

impl<C: Connection + Drop> StreamSink<C> {
    /// A sink over this connection.
    pub fn over(stream: C) -> StreamSink<C>
        ensures { result ≡ outgoing (C.sent stream) (C.passed stream) 0 }
    {
        StreamSink {
            stream,
            faults: Count::new(),
        }
    }
}

impl<C: Connection + Drop> Sink for StreamSink<C> {
    ghost taken = { λ s. s.taken };

    ghost passed = { λ s. s.passed };

    ghost write_faults = { λ s. s.faults };

    ghost unread = { λ _. no_source };

    fn write(&mut self, bytes: &[u8]) -> Took {
        send_counted(&mut self.stream, bytes, &mut self.faults)
    }

    fn flush(&mut self) -> bool {
        flush_counted(&mut self.stream, &mut self.faults)
    }

    fn write_faults(&self) -> u64 {
        self.faults.get()
    }
}

/// A writer of std as a connection, on which nothing comes in. It tells the bytes that the writer tells; what the writer passes
/// on isn't told.
#[derive(Drop)]
pub struct Written<W: Write> {
    writer: W,
    first: Snapshot<W>,
}

impl<W: Write> Model for Written<W> {
    ghost use Rattle.std.specs.Prelude.{◌≡◌, ℕ, List, Option, is_some, true};
    ghost use Rattle.dio_core.specs.Streams.{told_since};

    ghost Value = { Option (List ℕ) };

    ghost view = { λ w. told_since (W.contents w.first.value) (W.contents w.writer) };

    ghost invariant = { λ w. is_some (W.contents w.first.value) ≡ true → is_some (W.contents w.writer) ≡ true };
}

impl<W: Write + Drop> Connection for Written<W> {
    ghost coming = { λ _. Some [] };

    ghost sent = { λ w. w };

    fn receive(&mut self, _buf: &mut [u8]) -> io::Result<usize> {
        Ok(0)
    }

    fn send(&mut self, bytes: &[u8]) -> io::Result<usize> {
        self.writer.write(bytes)
    }

    fn flush(&mut self) -> io::Result<()> {
        self.writer.flush()
    }

    fn shut(&mut self) {}
}

/// A sink over a writer of std.
pub type StdSink<W> = StreamSink<Written<W>>;

impl<W: Write + Drop> StreamSink<Written<W>> {
    ghost use Rattle.std.specs.Prelude.{◌≡◌, None};

    /// A sink over this writer.
    pub fn new(writer: W) -> StdSink<W>
        ensures { result ≡ outgoing (W.contents writer) None 0 }
    {
        StreamSink::over(Written {
            first: Snapshot::of(&writer),
            writer,
        })
    }
}
