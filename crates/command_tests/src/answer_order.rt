//! A source and a sink that share one log, which shows in what order bytes are read and written.

ghost use Rattle.std.specs.Prelude.{None};
ghost use Rattle.dio_core.specs.Links.{no_sink, no_source};

use diamond_cli::diamond;
use dio_core::{Got, NoDisk, NoListener, Sink, Source, Took};
use std::alloc::Global;
use std::cell::RefCell;
use std::process::Abort;
use std::sync::Wait;
use std::thread::Threads;

/// What was read and written so far, byte by byte, with `!` for a flush.
type Log = RefCell<Vec<u8>>;

/// Adds a byte to the log.
fn note(log: &Log, byte: u8) {
    if let Ok(mut bytes) = log.try_borrow_mut() {
        let _ = bytes.push(byte);
    }
}

/// A source that gives a byte in a call, and notes it. It may see all that is left.
#[derive(Drop)]
struct NotedSource<'a> {
    rest: &'a [u8],
    sees_all: bool,
    log: &'a Log,
}

impl Source for NotedSource<'_> {
    ghost left = { λ _. None };

    ghost read_faults = { λ _. 0 };

    ghost written = { λ _. no_sink };

    fn read(&mut self, buf: &mut [u8]) -> Got {
        match self.rest.split_first() {
            Some((first, rest)) => {
                note(self.log, *first);
                buf[0] = *first;
                self.rest = rest;
                Got::Bytes(1)
            }
            None => Got::End,
        }
    }

    fn sees(&self, last: u8) -> bool {
        self.sees_all && self.rest.contains(&last)
    }

    fn read_faults(&self) -> u64 {
        0
    }
}

/// A sink that takes a byte in a call, and notes it and each flush.
#[derive(Drop)]
struct NotedSink<'a> {
    log: &'a Log,
}

impl Sink for NotedSink<'_> {
    ghost taken = { λ _. None };

    ghost passed = { λ _. None };

    ghost write_faults = { λ _. 0 };

    ghost unread = { λ _. no_source };

    fn write(&mut self, bytes: &[u8]) -> Took {
        note(self.log, bytes[0]);
        Took::Bytes(1)
    }

    fn flush(&mut self) -> bool {
        note(self.log, b'!');
        true
    }

    fn write_faults(&self) -> u64 {
        0
    }
}

/// Whether this is noted of a run of some lines.
fn notes(
    rt: &(impl Abort + Threads + Wait + Sync),
    alloc: Global,
    sees_all: bool,
    wanted: &[u8],
) -> bool {
    let log = RefCell::new(Vec::new(alloc));
    let mut source = NotedSource {
        rest: b"0 fly\n\n1 fly\n0 fly",
        sees_all,
        log: &log,
    };
    let mut sink = NotedSink { log: &log };
    let status = diamond(
        rt,
        alloc,
        &["run"],
        &mut source,
        &mut sink,
        &mut NoDisk::new(),
        &mut NoListener::new(),
    );
    let _ = (source, sink);
    status == 0 && log.into_inner().as_slice() == wanted
}

/// Each line is answered before the next is read.
const IN_TURN: &[u8] =
    b"0 fly\n0 refused verb\n!\n!1 fly\n1 refused verb\n!0 fly0 refused verb\n!!";

/// Answers are held back while lines are ahead.
const AHEAD: &[u8] = b"0 fly\n0 refused verb\n\n1 fly\n1 refused verb\n!0 fly0 refused verb\n!!";

#[test]
fn lines_are_answered_in_turn_and_held_back_while_others_are_ahead(rt: HostRuntime) {
    assert!(rt; notes(&rt, rt.alloc(), false, IN_TURN));
    assert!(rt; notes(&rt, rt.alloc(), true, AHEAD));
}
