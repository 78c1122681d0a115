//! Tests of requests over links in memory.

use crate::serving::serve_alone;
use dio_core::MemLink;
use script_runner::{READ_FAULT, WHOLE, WRITE_FAULT};
use std::alloc::Global;
use std::sync::Wait;
use wire_server::MALFORMED;

/// The greeting, and its answer: the client 0 has seen nothing, and there are 4 shards.
const HELLO: &[u8] = b"\x00\x00\x00\x01\x01";

const HELLO_ANSWERED: &[u8] =
    b"\x00\x00\x00\x0e\x00\x00\x00\x00\x00\x00\x00\x00\x00\x00\x00\x00\x00\x04";

/// The client's first commit, which emits 7, and its answer.
const APPEND: &[u8] =
    b"\x00\x00\x00\x18\x05\x00\x00\x00\x00\x00\x00\x00\x01\x00\x00\x00\x07emit 7;\x00\x00\x00\x00";

const APPENDED: &[u8] =
    b"\x00\x00\x00\x11\x00\x00\x00\x00\x00\x00\x00\x00\x01\x00\x00\x00\x00\x00\x00\x00\x01";

/// What a link gives and in which pieces, the reads and writes that fail, the status, what is answered, and how many commits there
/// are then.
struct Row {
    bytes: &'static [u8],
    piece: usize,
    reads: &'static [u64],
    writes: &'static [u64],
    status: u8,
    replies: &'static [u8],
    commits: usize,
}

static ROWS: [Row; 14] = [
    // A link may end at once.
    Row {
        bytes: b"",
        piece: 1000,
        reads: &[],
        writes: &[],
        status: WHOLE,
        replies: b"",
        commits: 0,
    },
    // A greeting is answered, also where it comes and goes in pieces of one byte.
    Row {
        bytes: HELLO,
        piece: 1000,
        reads: &[],
        writes: &[],
        status: WHOLE,
        replies: HELLO_ANSWERED,
        commits: 0,
    },
    Row {
        bytes: HELLO,
        piece: 1,
        reads: &[],
        writes: &[],
        status: WHOLE,
        replies: HELLO_ANSWERED,
        commits: 0,
    },
    // There is no request 99.
    Row {
        bytes: b"\x00\x00\x00\x01\x63",
        piece: 1000,
        reads: &[],
        writes: &[],
        status: MALFORMED,
        replies: b"",
        commits: 0,
    },
    // What stands before it is answered.
    Row {
        bytes: b"\x00\x00\x00\x01\x01\x00\x00\x00\x01\x63",
        piece: 1000,
        reads: &[],
        writes: &[],
        status: MALFORMED,
        replies: HELLO_ANSWERED,
        commits: 0,
    },
    // A frame has at least one byte, and at most 33,554,432.
    Row {
        bytes: b"\x00\x00\x00\x00",
        piece: 1000,
        reads: &[],
        writes: &[],
        status: MALFORMED,
        replies: b"",
        commits: 0,
    },
    Row {
        bytes: b"\x02\x00\x00\x01\x01",
        piece: 1000,
        reads: &[],
        writes: &[],
        status: MALFORMED,
        replies: b"",
        commits: 0,
    },
    // A commit is made, and is seen by the next request.
    Row {
        bytes: b"\x00\x00\x00\x18\x05\x00\x00\x00\x00\x00\x00\x00\x01\x00\x00\x00\x07emit 7;\x00\x00\x00\x00\x00\x00\x00\x01\x02",
        piece: 1000,
        reads: &[],
        writes: &[],
        status: WHOLE,
        replies: b"\x00\x00\x00\x11\x00\x00\x00\x00\x00\x00\x00\x00\x01\x00\x00\x00\x00\x00\x00\x00\x01\x00\x00\x00\x09\x00\x00\x00\x00\x00\x00\x00\x00\x01",
        commits: 1,
    },
    // Nobody commits in another place than the next.
    Row {
        bytes: b"\x00\x00\x00\x18\x05\x00\x00\x00\x00\x00\x00\x00\x02\x00\x00\x00\x07emit 7;\x00\x00\x00\x00",
        piece: 1000,
        reads: &[],
        writes: &[],
        status: MALFORMED,
        replies: b"",
        commits: 0,
    },
    // A read that fails in front of a frame ends a serving, and so does one in a frame.
    Row {
        bytes: HELLO,
        piece: 1000,
        reads: &[0],
        writes: &[],
        status: READ_FAULT,
        replies: b"",
        commits: 0,
    },
    Row {
        bytes: APPEND,
        piece: 1,
        reads: &[9],
        writes: &[],
        status: READ_FAULT,
        replies: b"",
        commits: 0,
    },
    Row {
        bytes: HELLO,
        piece: 1000,
        reads: &[2],
        writes: &[],
        status: READ_FAULT,
        replies: HELLO_ANSWERED,
        commits: 0,
    },
    // A write that fails ends a serving, and so does a flush.
    Row {
        bytes: HELLO,
        piece: 4,
        reads: &[],
        writes: &[1],
        status: WRITE_FAULT,
        replies: b"\x00\x00\x00\x0e",
        commits: 0,
    },
    Row {
        bytes: APPEND,
        piece: 1000,
        reads: &[],
        writes: &[1],
        status: WRITE_FAULT,
        replies: APPENDED,
        commits: 1,
    },
];

/// The rows, so that the proof of a test doesn't go through them.
fn rows() -> &'static [Row] {
    &ROWS
}

/// Whether the requests over the link of a row are answered so. Where they are to the end, all that was answered was passed on.
fn is_answered<R: Wait>(rt: &R, alloc: Global, row: &Row) -> bool {
    match MemLink::new(alloc, row.bytes, row.piece.max(1), row.reads, row.writes) {
        Ok(mut link) => {
            serve_alone(rt, alloc, &mut link) == Ok((row.status, row.commits))
                && link.sink.taken() == row.replies
                && (row.status != WHOLE || link.sink.passed() == row.replies)
        }
        Err(_) => false,
    }
}

#[test]
fn requests_are_answered_to_the_links_end(rt: HostRuntime) {
    for (number, row) in rows().iter().enumerate() {
        assert!(rt; is_answered(&rt, rt.alloc(), row), "row {number}");
    }
}

/// What comes of the requests over a link: the status, what is answered, and how many commits there are then.
struct Outcome {
    status: u8,
    replies: &'static [u8],
    commits: usize,
}

/// Whether this comes of the requests over a link that gives these bytes.
fn comes_to<R: Wait>(rt: &R, alloc: Global, bytes: &[u8], outcome: &Outcome) -> bool {
    match MemLink::new(alloc, bytes, 1000, &[], &[]) {
        Ok(mut link) => {
            serve_alone(rt, alloc, &mut link) == Ok((outcome.status, outcome.commits))
                && link.sink.taken() == outcome.replies
        }
        Err(_) => false,
    }
}

/// The commit's frame, and its answer.
fn append() -> &'static [u8] {
    APPEND
}

fn appended() -> &'static [u8] {
    APPENDED
}

/// A link is refused.
static REFUSED: Outcome = Outcome {
    status: MALFORMED,
    replies: b"",
    commits: 0,
};

/// The commit is made and told.
static COMMITTED: Outcome = Outcome {
    status: WHOLE,
    replies: APPENDED,
    commits: 1,
};

/// A link that ends within a frame ends with 10 wherever that is, and the commit that the frame spells isn't made.
#[test]
fn links_that_end_within_a_frame_are_refused(rt: HostRuntime) {
    let frame = append();
    for end in 1..frame.len() {
        assert!(rt;
            comes_to(&rt, rt.alloc(), &frame[..end], &REFUSED),
            "byte {end}"
        );
    }
    assert!(rt; comes_to(&rt, rt.alloc(), frame, &COMMITTED));
}

/// How many reads there are where each gives a byte: one for each byte of the frame, and one that finds the link's end.
const READS: u64 = 29;

/// Whether a serving ends at the read with this number, which fails. Where it stands behind the frame, the commit is made and told.
fn ends_at_read<R: Wait>(rt: &R, alloc: Global, read: u64) -> bool {
    let Ok(mut link) = MemLink::new(alloc, append(), 1, &[read], &[]) else {
        return false;
    };
    let is_told = read == READS - 1;
    let told = if is_told { appended() } else { b"".as_slice() };
    serve_alone(rt, alloc, &mut link) == Ok((READ_FAULT, usize::from(is_told)))
        && link.sink.taken() == told
        && link.sink.passed() == told
}

#[test]
fn a_link_may_fail_at_any_read(rt: HostRuntime) {
    for read in 0..READS {
        assert!(rt; ends_at_read(&rt, rt.alloc(), read), "read {read}");
    }
}

/// How many calls of the sink there are where each write takes a byte: one for each byte of the answer, and a flush.
const WRITES: usize = 22;

/// Whether a serving ends at the write with this number, which fails. So much of the answer was taken, and the commit is made.
fn ends_at_write<R: Wait>(rt: &R, alloc: Global, write: usize) -> bool {
    let Ok(mut link) = MemLink::new(alloc, append(), 1, &[], &[write as u64]) else {
        return false;
    };
    let told = appended();
    serve_alone(rt, alloc, &mut link) == Ok((WRITE_FAULT, 1))
        && link.sink.taken() == &told[..write.min(told.len())]
        && link.sink.passed().is_empty()
}

#[test]
fn a_link_may_fail_at_any_write(rt: HostRuntime) {
    for write in 0..WRITES {
        assert!(rt; ends_at_write(&rt, rt.alloc(), write), "write {write}");
    }
}
