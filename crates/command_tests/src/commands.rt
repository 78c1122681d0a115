//! The top call over objects in memory: what its words ask for, and faults of reads and writes at named calls. Scripts that
//! are answered are cases of `script_cases`.

use diamond_cli::{BAD_WORDS, WRITE_FAULT, diamond};
use dio_core::{MemSink, MemSource, NoDisk, NoListener};
use script_runner::{READ_FAULT, WHOLE};
use std::alloc::Global;
use std::process::Abort;
use std::sync::Wait;
use std::thread::Threads;

/// A line of 51 bytes.
const LINE: &[u8] = b"0 do counter(\"x\").add(5); emit counter(\"x\").get();\n";

/// Its reply, of 16 bytes.
const REPLY: &[u8] = b"0 commit 1 ok 5\n";

/// A script, in which the second commit is one more than a limit of 1 takes.
const ONE_TOO_MANY: &[u8] = b"0 do emit 1;\n0 do emit 1;\n";

/// In which pieces a script is read and its replies are written, and which of those reads and writes fail.
type Streams = (usize, usize, &'static [u64], &'static [u64]);

/// The words of a command, the script and the streams over which it comes, the status, and what is written.
#[derive(Clone, Copy)]
struct Command {
    words: &'static [&'static str],
    script: &'static [u8],
    streams: Streams,
    status: u8,
    output: &'static [u8],
}

/// Runs a command, and answers whether it ends with its status and has written its output. Where no write and no flush fails, all
/// was passed on.
fn ends_so(rt: &(impl Abort + Threads + Wait + Sync), alloc: Global, command: &Command) -> bool {
    let (read_piece, write_piece, reads, writes) = command.streams;
    let source = MemSource::new(alloc, command.script, read_piece.max(1), reads);
    let sink = MemSink::new(alloc, write_piece.max(1), writes);
    let (Ok(mut source), Ok(mut sink)) = (source, sink) else {
        return false;
    };
    let found = diamond(
        rt,
        alloc,
        command.words,
        &mut source,
        &mut sink,
        &mut NoDisk::new(),
        &mut NoListener::new(),
    );
    found == command.status
        && sink.taken() == command.output
        && (!writes.is_empty() || sink.passed() == command.output)
}

/// Streams of which reads fail, and of which writes fail: the status, and what is written.
static FAULTS: [(Streams, u8, &'static [u8]); 7] = [
    ((1, 4096, &[20], &[]), READ_FAULT, b""),
    ((1, 4096, &[0], &[]), READ_FAULT, b""),
    ((1, 4096, &[51], &[]), READ_FAULT, REPLY),
    ((3, 1, &[], &[3]), WRITE_FAULT, b"0 c"),
    ((3, 1, &[], &[0]), WRITE_FAULT, b""),
    ((3, 1, &[], &[16]), WRITE_FAULT, REPLY),
    // The read of the second line's first byte fails, and then the flush, the third call of the sink.
    ((1, 4096, &[51], &[2]), READ_FAULT, REPLY),
];

/// The rows, so that the proof of a test doesn't go through them.
fn faults() -> &'static [(Streams, u8, &'static [u8])] {
    &FAULTS
}

#[test]
fn faults_stop_a_run(rt: HostRuntime) {
    for (streams, status, output) in faults() {
        let run = Command {
            words: &["run"],
            script: LINE,
            streams: *streams,
            status: *status,
            output: *output,
        };
        assert!(rt; ends_so(&rt, rt.alloc(), &run));
    }
}

/// Words, the script, the status, and what is written.
type Row = (&'static [&'static str], &'static [u8], u8, &'static [u8]);

static WORDS: [Row; 15] = [
    // Words that ask for nothing.
    (&[], LINE, BAD_WORDS, b""),
    (&["fly"], LINE, BAD_WORDS, b""),
    (&["run", "run"], LINE, BAD_WORDS, b""),
    (&["run", "--shards", "0"], LINE, BAD_WORDS, b""),
    (
        &["run", "--shards", "4", "--shards", "4"],
        LINE,
        BAD_WORDS,
        b"",
    ),
    (&["run", "--address", "a"], LINE, BAD_WORDS, b""),
    (&["serve"], LINE, BAD_WORDS, b""),
    (
        &["serve", "--address", "a", "--sessions=0"],
        LINE,
        BAD_WORDS,
        b"",
    ),
    (
        &["serve", "--address", "a", "--address", "a"],
        LINE,
        BAD_WORDS,
        b"",
    ),
    (&["load"], LINE, BAD_WORDS, b""),
    (&["load", "--seed", "1"], LINE, BAD_WORDS, b""),
    (&["load", "--seed=1", "--count=0"], LINE, BAD_WORDS, b""),
    // Words that give the settings.
    (&["run", "--shards=4"], LINE, WHOLE, REPLY),
    (
        &["run", "--limit", "1", "--window=1"],
        ONE_TOO_MANY,
        WHOLE,
        b"0 commit 1 ok 1\n0 full 1\n",
    ),
    (
        &["run", "--shards", "1"],
        b"0 follow 0\n0 follow 1\n",
        WHOLE,
        b"0 follow 0 front 0\n0 refused verb\n",
    ),
];

fn words() -> &'static [Row] {
    &WORDS
}

#[test]
fn words_ask_for_nothing_or_give_the_settings(rt: HostRuntime) {
    for (number, (words, script, status, output)) in words().iter().enumerate() {
        // Each word is read before a byte is: small pieces show what is read or written where nothing is asked for.
        let piece = if *status == WHOLE { 4096 } else { 1 };
        let command = Command {
            words: *words,
            script: *script,
            streams: (piece, piece, &[], &[]),
            status: *status,
            output: *output,
        };
        assert!(rt; ends_so(&rt, rt.alloc(), &command), "row {number}");
    }
}

/// The line of a small load.
const SMALL: &[u8] = b"load 3 commits 5 aborts 1 runs 1 journal 5\n";

/// The words of that load.
const SMALL_WORDS: &[&str] = &["load", "--seed", "1", "--count", "3"];

/// Loads, and their lines. These were reckoned by another program, which plays the scripts by the rules. One load comes twice.
static LOADS: [(&[&str], &[u8]); 3] = [
    (SMALL_WORDS, SMALL),
    (
        &["load", "--seed", "7", "--count", "2000"],
        b"load 2000 commits 3505 aborts 495 runs 115 journal 3505\n",
    ),
    (
        &["load", "--count=2000", "--seed=7"],
        b"load 2000 commits 3505 aborts 495 runs 115 journal 3505\n",
    ),
];

fn loads() -> &'static [(&'static [&'static str], &'static [u8])] {
    &LOADS
}

#[test]
fn loads_are_counted(rt: HostRuntime) {
    for (words, line) in loads() {
        let load = Command {
            words: *words,
            script: LINE,
            // Nothing is read: a read would fail.
            streams: (1, 4096, &[0], &[]),
            status: WHOLE,
            output: *line,
        };
        assert!(rt; ends_so(&rt, rt.alloc(), &load));
    }
}

/// Which write or flush of the line fails, where it is written byte by byte, and what is written.
static LOAD_FAULTS: [(&[u64], &[u8]); 3] = [
    (&[0], b""),
    (&[4], b"load"),
    // The flush.
    (&[43], SMALL),
];

fn load_faults() -> &'static [(&'static [u64], &'static [u8])] {
    &LOAD_FAULTS
}

#[test]
fn faults_stop_the_line_of_a_load(rt: HostRuntime) {
    for (writes, output) in load_faults() {
        let load = Command {
            words: SMALL_WORDS,
            script: LINE,
            streams: (1, 1, &[], *writes),
            status: WRITE_FAULT,
            output: *output,
        };
        assert!(rt; ends_so(&rt, rt.alloc(), &load));
    }
}
