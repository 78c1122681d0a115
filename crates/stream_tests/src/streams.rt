//! Tests of sources, sinks and links in memory and over std, and of what isn't there.

use crate::lines::{Calls, NEVER, Pieces, is_next, reads};
use dio_core::{
    Accepted, Disk, End, Listener, MemLink, MemSink, NoDisk, NoListener, Sink, Source, StdSink,
    StdSource, write_all,
};
use std::alloc::{AllocError, Global};
use std::io;
use std::io::Write;

/// Whether a write of "abc" to a sink that fails at this call takes these bytes, and whether it and a flush succeed.
fn takes(sink: Result<MemSink, AllocError>, want: &[u8], all: bool, flushed: bool) -> bool {
    let Ok(mut sink) = sink else {
        return false;
    };
    write_all(&mut sink, b"abc") == all
        && sink.taken() == want
        && sink.flush() == flushed
        && sink.passed() == if flushed { want } else { b"" }
        && sink.write_faults() == 1
}

/// The call that fails, what is taken, and whether the write and the flush succeed.
static STOPS: [(u64, &'static [u8], bool, bool); 4] = [
    (0, b"", false, true),
    (1, b"a", false, true),
    (2, b"ab", false, true),
    (3, b"abc", true, false),
];

fn stops() -> &'static [(u64, &'static [u8], bool, bool)] {
    &STOPS
}

#[test]
fn a_write_stops_at_a_fault_and_a_flush_passes_on(rt: HostRuntime) {
    for (call, want, all, flushed) in stops() {
        let sink = MemSink::new(rt.alloc(), 1, &[*call]);
        assert!(rt; takes(sink, want, *all, *flushed));
    }
}

/// Whether a link gives the line "ab", and then takes, passes on and ends.
fn exchanges(alloc: Global, link: Result<MemLink, AllocError>) -> bool {
    let Ok(mut link) = link else {
        return false;
    };
    let read = is_next(alloc, &mut link, b"ab");
    let written = write_all(&mut link, b"cd") && link.flush();
    link.end();
    read && written
        && link.sink.passed() == b"cd".as_slice()
        && link.read_faults() == 0
        && link.write_faults() == 0
}

#[test]
fn a_link_reads_and_writes_and_ends(rt: HostRuntime) {
    let alloc = rt.alloc();
    assert!(rt; exchanges(alloc, MemLink::new(alloc, b"ab", 4, &[], &[])));
}

/// Whether each call of a disk that isn't there fails.
fn fails_throughout(disk: &mut NoDisk) -> bool {
    disk.length().is_err()
        && disk.read(0, &mut [0]).is_err()
        && disk.write_at(0, b"a").is_err()
        && disk.cut(0).is_err()
        && disk.sync().is_err()
}

#[test]
fn a_disk_that_is_not_there_fails_and_counts(rt: HostRuntime) {
    let mut disk = NoDisk::new();
    assert!(rt; fails_throughout(&mut disk));
    assert!(rt; disk.disk_faults() == 5);
}

/// Whether a listener that isn't there fails, counts it, and takes a link back.
fn refuses(link: Result<MemLink, AllocError>) -> bool {
    let mut listener = NoListener::new();
    let failed = matches!(&listener.accept(), Accepted::Failed);
    let Ok(link) = link else {
        return false;
    };
    failed && listener.accept_faults() == 1 && listener.give_back(link, 0).is_ok()
}

#[test]
fn a_listener_that_is_not_there_fails_and_counts(rt: HostRuntime) {
    assert!(rt; refuses(MemLink::new(rt.alloc(), b"", 4, &[], &[])));
}

/// What a reader gives.
const GIVEN: &[u8] = b"ab\ncd";

/// Whether a source over a reader gives these lines and counts so many faults.
fn drips(alloc: Global, piece: usize, fails: u64, wanted: &[&[u8]], faults: u64) -> bool {
    let reader = Pieces::new(GIVEN, piece, fails);
    reads(alloc, StdSource::new(alloc, reader), wanted, faults)
}

/// In which pieces the reader gives its bytes, the call at which it fails, the answers, and how many faults there are.
static DRIPS: [(usize, u64, [&'static [u8]; 3], u64); 7] = [
    (1, NEVER, [b"ab", b"cd", b"end"], 0),
    (3, NEVER, [b"ab", b"cd", b"end"], 0),
    (8, NEVER, [b"ab", b"cd", b"end"], 0),
    (1, 1, [b"fault", b"b", b"cd"], 1),
    (2, 1, [b"fault", b"", b"cd"], 1),
    (3, 1, [b"ab", b"fault", b"cd"], 1),
    (8, 0, [b"fault", b"ab", b"cd"], 1),
];

fn drips_rows() -> &'static [(usize, u64, [&'static [u8]; 3], u64)] {
    &DRIPS
}

#[test]
fn a_source_over_a_reader_gives_all_of_it_and_counts_its_errors(rt: HostRuntime) {
    for (piece, fails, wanted, faults) in drips_rows() {
        assert!(rt; drips(rt.alloc(), *piece, *fails, wanted, *faults));
    }
}

/// A writer that takes at most `piece` bytes in a call.
#[derive(Drop)]
struct Cup {
    taken: Vec<u8>,
    piece: usize,
    calls: Calls,
}

impl Write for Cup {
    fn write(&mut self, bytes: &[u8]) -> io::Result<usize> {
        self.calls.begin()?;
        let count = bytes.len().min(self.piece);
        self.taken.extend_from_slice(&bytes[..count])?;
        Ok(count)
    }

    fn flush(&mut self) -> io::Result<()> {
        self.calls.begin()
    }
}

/// Whether a write of five bytes, and a flush, succeed, and how many faults the sink has then counted.
fn poured<W: Sink + Drop>(mut sink: W) -> (bool, bool, u64) {
    let all = write_all(&mut sink, b"abcde");
    let flushed = sink.flush();
    (all, flushed, sink.write_faults())
}

/// Whether a writer takes these bytes, and the sink over it answers so.
fn fills(alloc: Global, piece: usize, fails: u64, want: &[u8], answer: (bool, bool, u64)) -> bool {
    let mut writer = Cup {
        taken: Vec::new(alloc),
        piece,
        calls: Calls::failing_at(fails),
    };
    let given = poured(StdSink::new(&mut writer));
    given == answer && writer.taken.as_slice() == want
}

/// How many bytes the writer takes in a call, the call at which it fails, what it takes, and the answers.
static FILLS: [(usize, u64, &'static [u8], (bool, bool, u64)); 7] = [
    (1, NEVER, b"abcde", (true, true, 0)),
    (2, NEVER, b"abcde", (true, true, 0)),
    (8, NEVER, b"abcde", (true, true, 0)),
    (2, 0, b"", (false, true, 1)),
    (2, 2, b"abcd", (false, true, 1)),
    (2, 3, b"abcde", (true, false, 1)),
    (0, NEVER, b"", (false, true, 1)),
];

fn fills_rows() -> &'static [(usize, u64, &'static [u8], (bool, bool, u64))] {
    &FILLS
}

#[test]
fn a_sink_over_a_writer_writes_all_and_counts_its_errors(rt: HostRuntime) {
    for (piece, fails, want, answer) in fills_rows() {
        assert!(rt; fills(rt.alloc(), *piece, *fails, want, *answer));
    }
}

/// Whether a source that was made has counted no fault.
fn is_sound<S: Source + Drop>(source: &Result<S, AllocError>) -> bool {
    match source {
        Ok(source) => source.read_faults() == 0,
        Err(_) => false,
    }
}

#[test]
fn the_streams_of_the_process_are_a_source_and_a_sink(rt: HostRuntime) {
    assert!(rt; is_sound(&StdSource::new(rt.alloc(), rt.stdin())));
    let mut output = StdSink::new(rt.stdout());
    assert!(rt; output.flush() && output.write_faults() == 0);
}
