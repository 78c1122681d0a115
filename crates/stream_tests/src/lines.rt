//! Tests of lines, and of sources that see the bytes ahead.

use dio_core::{Got, LONGEST_LINE, Line, LineFault, MemSource, Source, StdSource, next_line};
use std::alloc::{AllocError, Global};
use std::io;
use std::io::{ErrorKind, Read};

/// An answer of `next_line` as a text.
fn shown(answer: &Result<Line, LineFault>) -> &[u8] {
    match answer {
        Ok(Line::Bytes(bytes)) => bytes.as_slice(),
        Ok(Line::TooLong) => b"too long".as_slice(),
        Ok(Line::End) => b"end".as_slice(),
        Err(LineFault::ReadFault) => b"fault".as_slice(),
        Err(LineFault::NoMemory) => b"no memory".as_slice(),
    }
}

/// Whether the source's next lines are these, and it has then counted so many faults.
pub(crate) fn reads<S: Source + Drop>(
    alloc: Global,
    source: Result<S, AllocError>,
    wanted: &[&[u8]],
    faults: u64,
) -> bool {
    let Ok(mut source) = source else {
        return false;
    };
    for want in wanted {
        if shown(&next_line(alloc, &mut source)) != *want {
            return false;
        }
    }
    source.read_faults() == faults
}

/// Whether an answer of `next_line` is this line.
fn is_line(answer: &Result<Line, LineFault>, wanted: &[u8]) -> bool {
    matches!(answer, Ok(Line::Bytes(bytes)) if bytes.as_slice() == wanted)
}

/// Whether the source's next line is this.
pub(crate) fn is_next<S: Source>(alloc: Global, source: &mut S, wanted: &[u8]) -> bool {
    is_line(&next_line(alloc, source), wanted)
}

/// Whether the source has no more line.
pub(crate) fn ends<S: Source>(alloc: Global, source: &mut S) -> bool {
    matches!(next_line(alloc, source), Ok(Line::End))
}

/// Whether a read of the source fails in its next line.
pub(crate) fn breaks<S: Source>(alloc: Global, source: &mut S) -> bool {
    matches!(next_line(alloc, source), Err(LineFault::ReadFault))
}

/// What is read, and the first line and the second.
type Row = (&'static [u8], &'static [u8], &'static [u8]);

static ROWS: [Row; 6] = [
    (b"", b"end", b"end"),
    (b"ab", b"ab", b"end"),
    (b"\n", b"", b"end"),
    (b"ab\n", b"ab", b"end"),
    (b"ab\ncd", b"ab", b"cd"),
    (b"\nab", b"", b"ab"),
];

/// The rows, so that the proof of a test doesn't go through them.
fn rows() -> &'static [Row] {
    &ROWS
}

#[test]
fn lines_end_at_newlines_and_at_the_end(rt: HostRuntime) {
    for (input, first, second) in rows() {
        let source = MemSource::new(rt.alloc(), input, 3, &[]);
        assert!(rt; reads(rt.alloc(), source, &[*first, *second], 0));
    }
}

/// Whether this many bytes, given so many at a time, are one line or a part of one, and this is behind it.
fn cuts(alloc: Global, length: usize, piece: usize, fits: bool, next: &[u8]) -> bool {
    let mut input = Vec::new(alloc);
    if input.resize(length, b'a').is_err() {
        return false;
    }
    let whole = input.as_slice();
    let first = if fits { whole } else { b"too long".as_slice() };
    let source = MemSource::new(alloc, whole, piece.max(1), &[]);
    reads(alloc, source, &[first, next], 0)
}

/// A number of bytes, whether they are one line, and what is behind it.
static LENGTHS: [(usize, bool, &'static [u8]); 4] = [
    (4_096, true, b"end"),
    (4_097, false, b"end"),
    (1_048_576, false, b"end"),
    (1_048_577, false, b"a"),
];

fn lengths() -> &'static [(usize, bool, &'static [u8])] {
    &LENGTHS
}

#[test]
fn a_line_has_4096_bytes_and_a_run_1048576(rt: HostRuntime) {
    for piece in [1, 3, 4_096] {
        for (length, fits, next) in lengths() {
            assert!(rt; cuts(rt.alloc(), *length, piece, *fits, next));
        }
    }
}

/// The read that fails: at the first byte of a line, in a line, and behind a newline.
static FAULTS: [(u64, [&'static [u8]; 3]); 3] = [
    (0, [b"fault", b"ab", b"c"]),
    (1, [b"fault", b"b", b"c"]),
    (3, [b"ab", b"fault", b"c"]),
];

fn faults() -> &'static [(u64, [&'static [u8]; 3])] {
    &FAULTS
}

#[test]
fn a_read_fault_takes_what_was_read(rt: HostRuntime) {
    for (call, wanted) in faults() {
        let source = MemSource::new(rt.alloc(), b"ab\nc", 1, &[*call]);
        assert!(rt; reads(rt.alloc(), source, wanted, 1));
    }
}

/// A number that no call has.
pub(crate) const NEVER: u64 = u64::MAX;

/// Calls that are counted, of which one fails.
#[derive(Drop)]
pub(crate) struct Calls {
    next: u64,
    fails: u64,
}

impl Calls {
    pub(crate) fn failing_at(call: u64) -> Calls {
        Calls {
            next: 0,
            fails: call,
        }
    }

    pub(crate) fn begin(&mut self) -> io::Result<()> {
        let call = self.next;
        self.next = call.saturating_add(1);
        if call == self.fails {
            return Err(ErrorKind::BrokenPipe.into());
        }
        Ok(())
    }
}

/// A reader that gives at most `piece` bytes in a call, and fails at one call.
#[derive(Drop)]
pub(crate) struct Pieces<'a> {
    rest: &'a [u8],
    piece: usize,
    calls: Calls,
}

impl<'a> Pieces<'a> {
    pub(crate) fn new(rest: &'a [u8], piece: usize, fails: u64) -> Pieces<'a> {
        Pieces {
            rest,
            piece,
            calls: Calls::failing_at(fails),
        }
    }
}

impl Read for Pieces<'_> {
    fn read(&mut self, buf: &mut [u8]) -> io::Result<usize> {
        self.calls.begin()?;
        let count = self.rest.len().min(buf.len()).min(self.piece);
        buf[..count].copy_from_slice(&self.rest[..count]);
        self.rest = &self.rest[count..];
        Ok(count)
    }
}

/// This many bytes of one line.
fn line_of(alloc: Global, length: usize) -> Result<Vec<u8>, AllocError> {
    let mut line = Vec::new(alloc);
    line.resize(length, b'a')?;
    Ok(line)
}

/// A line, and two short ones behind it.
fn three_lines(alloc: Global, first: &[u8]) -> Result<Vec<u8>, AllocError> {
    let mut lines = Vec::from_slice(alloc, first)?;
    lines.extend_from_slice(b"\n\nlast")?;
    Ok(lines)
}

/// Whether a line of this many bytes, and what is behind it, is read from a reader that gives so many at a time.
fn is_read(alloc: Global, length: usize, piece: usize) -> bool {
    let Ok(line) = line_of(alloc, length) else {
        return false;
    };
    let Ok(bytes) = three_lines(alloc, &line) else {
        return false;
    };
    let reader = Pieces::new(bytes.as_slice(), piece, NEVER);
    let first = if length > LONGEST_LINE {
        b"too long".as_slice()
    } else {
        line.as_slice()
    };
    reads(
        alloc,
        StdSource::new(alloc, reader),
        &[first, b"", b"last", b"end"],
        0,
    )
}

static MANY_LENGTHS: [usize; 18] = [
    0, 1, 2, 63, 64, 65, 127, 128, 129, 130, 255, 256, 257, 4_095, 4_096, 4_097, 8_190, 8_192,
];

fn many_lengths() -> &'static [usize] {
    &MANY_LENGTHS
}

#[test]
fn lines_of_all_lengths_are_read_in_pieces_of_all_sizes(rt: HostRuntime) {
    for length in many_lengths() {
        for piece in [1, 50, 128, 10_000] {
            assert!(rt; is_read(rt.alloc(), *length, piece));
        }
    }
}

/// Whether one read up to a newline gives these bytes.
fn gives<S: Source>(source: &mut S, wanted: &[u8]) -> bool {
    let mut buf = [0; 4];
    match source.read_through(b'\n', &mut buf) {
        Got::Bytes(count) => &buf[..count] == wanted,
        _ => wanted.is_empty(),
    }
}

/// Whether a source over a reader gives these parts, one a read.
fn parts(alloc: Global, piece: usize, wanted: &[&[u8]]) -> bool {
    let Ok(mut source) = StdSource::new(alloc, Pieces::new(b"a\nbcdefg\n\n", piece, NEVER)) else {
        return false;
    };
    for want in wanted {
        if !gives(&mut source, want) {
            return false;
        }
    }
    true
}

/// In which pieces a reader gives its bytes, and the parts. Where nothing was read ahead a byte is given.
static PARTS: [(usize, &'static [&'static [u8]]); 2] = [
    (100, &[b"a", b"\n", b"bcde", b"fg\n", b"\n", b""]),
    (
        3,
        &[b"a", b"\n", b"b", b"c", b"de", b"f", b"g\n", b"\n", b""],
    ),
];

fn parts_of_pieces() -> &'static [(usize, &'static [&'static [u8]])] {
    &PARTS
}

#[test]
fn a_read_stops_at_the_newline_and_where_the_buffer_is_full(rt: HostRuntime) {
    for (piece, wanted) in parts_of_pieces() {
        assert!(rt; parts(rt.alloc(), *piece, wanted));
    }
}

/// A source that counts how often it is read up to a newline.
#[derive(Drop)]
struct Counted<S: Source> {
    source: S,
    reads: u64,
}

impl<S: Source> Source for Counted<S> {
    ghost left = { λ c. S.left c.source };

    ghost read_faults = { λ c. S.read_faults c.source };

    ghost written = { λ c. S.written c.source };

    fn read(&mut self, buf: &mut [u8]) -> Got {
        self.source.read(buf)
    }

    fn read_through(&mut self, last: u8, buf: &mut [u8]) -> Got {
        self.reads = self.reads.saturating_add(1);
        self.source.read_through(last, buf)
    }

    fn read_faults(&self) -> u64 {
        self.source.read_faults()
    }
}

/// Whether an answer of `next_line` is a line of this many bytes.
fn has_length(answer: &Result<Line, LineFault>, length: usize) -> bool {
    matches!(answer, Ok(Line::Bytes(line)) if line.len() == length)
}

/// How many reads the next line takes, if it has this many bytes.
fn reads_of<S: Source>(alloc: Global, source: &mut Counted<S>, length: usize) -> Option<u64> {
    source.reads = 0;
    let found = has_length(&next_line(alloc, source), length);
    found.then_some(source.reads)
}

/// Whether three lines are read by so few reads.
fn reads_few(alloc: Global, source: Result<StdSource<Pieces<'_>>, AllocError>) -> bool {
    let Ok(source) = source else {
        return false;
    };
    let mut counted = Counted { source, reads: 0 };
    reads_of(alloc, &mut counted, 31) == Some(2)
        && reads_of(alloc, &mut counted, 0) == Some(1)
        && reads_of(alloc, &mut counted, 4) == Some(3)
}

#[test]
fn a_line_is_read_by_few_reads(rt: HostRuntime) {
    let reader = Pieces::new(b"a line of some thirty bytes and\n\nlast", 100, NEVER);
    assert!(rt; reads_few(rt.alloc(), StdSource::new(rt.alloc(), reader)));
}

/// Whether a source sees what it has read ahead of "a", a newline and "b".
fn sees_ahead(source: Result<StdSource<Pieces<'_>>, AllocError>) -> bool {
    let Ok(mut source) = source else {
        return false;
    };
    !source.sees(b'\n')
        && gives(&mut source, b"a")
        && source.sees(b'\n')
        && source.sees(b'b')
        && !source.sees(b'a')
        && gives(&mut source, b"\n")
        && !source.sees(b'\n')
        && source.sees(b'b')
}

#[test]
fn a_source_sees_what_it_has_read_ahead(rt: HostRuntime) {
    let reader = Pieces::new(b"a\nb", 100, NEVER);
    assert!(rt; sees_ahead(StdSource::new(rt.alloc(), reader)));
}
