//! Where bytes come from: any source, and the one over a reader of std. Contracts see the bytes that a source has left, where it
//! tells them.

ghost use Rattle.std.specs.Prelude.{◌≡◌, ℕ, ◌<◌, ◌++◌, List, Option, length, take, drop, IfOk};
ghost use Rattle.std.specs.Bool.{OnTrue};
ghost use Rattle.dio_core.specs.Counts.{IsCounted};
ghost use Rattle.dio_core.specs.Sources.{Gives, StopsAt, IsAhead, length_through, read_failed};
ghost use Rattle.dio_core.specs.Links.{Outgoing, no_sink, incoming};

use crate::count::Count;
use memchr::{memchr, memrchr};
use std::alloc::{AllocError, Global};
use std::io::{BufRead, BufReader, Read};
use std::marker::Model;
use std::snapshot::Snapshot;

/// What a read gave.
#[derive(Clone, Copy, Debug, PartialEq, Eq)]
pub enum Got {
    /// So many bytes, at least one, at the beginning of the buffer.
    Bytes(usize),
    /// Nothing, since nothing is left.
    End,
    /// Nothing, for a fault.
    Failed,
}

/// A stream of bytes that are read in their order.
pub trait Source {
    /// The bytes left, or None where the source doesn't tell.
    ghost left: { Self → Option (List ℕ) };

    /// How many reads have failed, up to the last value of a u64.
    ghost read_faults: { Self → ℕ };

    /// What the object tells as a sink, where it is one too. No read changes it.
    ghost written: { Self → Outgoing };

    /// Reads the next of the bytes left into the beginning of `buf`.
    fn read(&mut self, buf: &mut [u8]) -> Got
        requires { 0 < length buf.old }
        ensures gives { Gives result buf.new (left self.old) (left self.new) }
        ensures written { written self.new ≡ written self.old }
        ensures counted { IsCounted (read_failed result) (read_faults self.old) (read_faults self.new) };

    /// Reads as `read` does, and nothing behind the first `last` that comes. It may give less than a `read` would: one
    /// that doesn't see the bytes ahead reads a byte.
    fn read_through(&mut self, last: u8, buf: &mut [u8]) -> Got
        requires { 0 < length buf.old }
        ensures gives { Gives result buf.new (left self.old) (left self.new) }
        ensures stops { StopsAt last result buf.new }
        ensures written { written self.new ≡ written self.old }
        ensures counted { IsCounted (read_failed result) (read_faults self.old) (read_faults self.new) }
    {
        self.read(&mut buf[..1])
    }

    /// Whether this byte is among those that the source sees ahead, so that reading up to it waits for nothing. One that sees
    /// none of the bytes ahead answers `false`.
    fn sees(&self, last: u8) -> bool
        ensures { OnTrue result (IsAhead last (left self.now)) }
    {
        let _ = last;
        false
    }

    /// How many reads have failed.
    fn read_faults(&self) -> u64
        ensures { result ≡ read_faults self.now };
}

/// Copies what fits of these bytes to the beginning of `buf`, up to and with the first `last`. How many they are.
#[inline(always)]
pub fn copy_through(last: u8, bytes: &[u8], buf: &mut [u8]) -> usize
    ensures count { result ≡ length_through last (take (length buf.old) bytes.now) }
    ensures copied { buf.new ≡ take result bytes.now ++ drop result buf.old }
{
    let fits = &bytes[..buf.len().min(bytes.len())];
    let count = match memchr(last, fits) {
        Some(at) => at + 1,
        None => fits.len(),
    };
    buf[..count].copy_from_slice(&fits[..count]);
    count
}

/// How many bytes a [`StdSource`] asks of its reader at once.
const READ_AHEAD: usize = 8192;

/// A source over a reader, which reads ahead. It tells what the reader tells, and counts each error: over a reader that tells its
/// bytes these contracts are those of any source, and the process's own tells nothing.
#[derive(Drop)]
pub struct StdSource<R: Read> {
    reader: BufReader<R>,
    first: Snapshot<R>,
    faults: Count,
}

impl<R: Read> Model for StdSource<R> {
    ghost use Rattle.std.specs.Prelude.{◌≡◌, is_some, true};
    ghost use Rattle.std.specs.Io.Buffered.{reader_remaining};
    ghost use Rattle.dio_core.specs.Links.{Incoming, incoming};
    ghost use Rattle.dio_core.specs.Streams.{told_since};

    ghost Value = { Incoming };

    ghost view = { λ s. incoming (told_since (R.remaining s.first.value) (reader_remaining R.remaining s.reader)) s.faults };

    ghost invariant = { λ s. is_some (R.remaining s.first.value) ≡ true → is_some (reader_remaining R.remaining s.reader) ≡ true };
}

impl<R: Read + Drop> StdSource<R> {
    /// A source over this reader. For want of memory for what is read ahead the reader is dropped.
    pub fn new(alloc: Global, reader: R) -> Result<StdSource<R>, AllocError>
        ensures { IfOk result (λ source. source ≡ incoming (R.remaining reader) 0) }
    {
        let first = Snapshot::of(&reader);
        match BufReader::with_capacity(alloc, READ_AHEAD, reader) {
            Ok(reader) => Ok(StdSource {
                reader,
                first,
                faults: Count::new(),
            }),
            Err(_) => Err(AllocError),
        }
    }
}

impl<R: Read + Drop> Source for StdSource<R> {
    ghost left = { λ s. s.left };

    ghost read_faults = { λ s. s.faults };

    ghost written = { λ _. no_sink };

    fn read(&mut self, buf: &mut [u8]) -> Got {
        match self.reader.read(buf) {
            Ok(0) => Got::End,
            Ok(count) => Got::Bytes(count),
            Err(_) => {
                self.faults.add_one();
                Got::Failed
            }
        }
    }

    fn read_through(&mut self, last: u8, buf: &mut [u8]) -> Got {
        let ahead = self.reader.buffer();
        if ahead.is_empty() {
            return self.read(&mut buf[..1]);
        }
        let count = copy_through(last, ahead, buf);
        self.reader.consume(count);
        Got::Bytes(count)
    }

    // From behind, where of several lines the newline of the last is near.
    fn sees(&self, last: u8) -> bool {
        memrchr(last, self.reader.buffer()).is_some()
    }

    fn read_faults(&self) -> u64 {
        self.faults.get()
    }
}
