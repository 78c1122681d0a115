//! Answers: two that are put together by hand, and bytes of each.

use change_feed::Feed;
use plain_data::Text;
use rdt_types::{Address, Delta, Kind};
use remote_wire::{
    Given, LONGEST_ANSWER, Request, WireAnswer, WireError, answers_are_read, decode_answer,
    decode_request, encode_answer, what_is_read_is_an_answer,
};
use std::alloc::{AllocError, Global};

/// A hold of the client 2, the commit 9, bars a commit.
const HELD: [u8; 21] = [
    5, 0, 0, 0, 0, 0, 0, 0, 9, 0, 0, 0, 2, 0, 0, 0, 0, 0, 0, 0, 9,
];

/// The counter x got 3 more, up to the commit 7.
const FED: [u8; 36] = [
    0, 0, 0, 0, 0, 0, 0, 0, 7, 0, 0, 0, 0, 0, 0, 0, 7, 0, 0, 0, 1, 1, 0, 0, 0, 1, 120, 2, 0, 0, 0,
    0, 0, 0, 0, 3,
];

/// The bytes of a request that names nothing observed, what it is given, and the bytes of the answer. Addresses are of the
/// counter x.
static ROWS: [(&[u8], &[u8], &[u8]); 14] = [
    (&[1], b"hello", &[0, 0, 0, 0, 0, 0, 0, 0, 0, 0, 0, 0, 0, 4]),
    (&[2], b"done", &[0, 0, 0, 0, 0, 0, 0, 0, 3]),
    (
        &[3, 1, 0, 0, 0, 1, 120],
        b"read",
        &[
            0, 0, 0, 0, 0, 0, 0, 0, 3, 0, 0, 0, 0, 0, 0, 0, 3, 1, 0, 0, 0, 0, 0, 0, 0, 5,
        ],
    ),
    (
        &[4, 1, 0, 0, 0, 0],
        b"front",
        &[0, 0, 0, 0, 0, 0, 0, 0, 3, 0, 0, 0, 0, 0, 0, 0, 3],
    ),
    (
        &[4, 1, 0, 0, 0, 0],
        b"late",
        &[
            1, 0, 0, 0, 0, 0, 0, 0, 3, 0, 0, 0, 0, 0, 0, 0, 1, 0, 0, 0, 0, 0, 0, 0, 2,
        ],
    ),
    (
        &APPEND,
        b"number",
        &[0, 0, 0, 0, 0, 0, 0, 0, 4, 0, 0, 0, 0, 0, 0, 0, 4],
    ),
    (
        &APPEND,
        b"clash",
        &[
            2, 0, 0, 0, 0, 0, 0, 0, 4, 1, 0, 0, 0, 1, 120, 1, 0, 0, 0, 0, 0, 0, 0, 2, 1, 0, 0, 0,
            0, 0, 0, 0, 7, 0, 0, 0, 0, 0, 0, 0, 3,
        ],
    ),
    (&APPEND, b"full", &[3, 0, 0, 0, 0, 0, 0, 0, 4, 0, 0, 0, 4]),
    (&APPEND, b"disk", &[4, 0, 0, 0, 0, 0, 0, 0, 4]),
    (&APPEND, b"held", &HELD),
    (
        &[6, 1, 0, 0, 0, 1, 120, 0, 0, 0, 0, 0, 0, 0, 2],
        b"value",
        &[0, 0, 0, 0, 0, 0, 0, 0, 3, 1, 0, 0, 0, 0, 0, 0, 0, 5],
    ),
    (
        &[7, 1, 0, 0, 0, 1, 120],
        b"done",
        &[0, 0, 0, 0, 0, 0, 0, 0, 3],
    ),
    (&[9], b"feed", &FED),
    (&[10], b"done", &[0, 0, 0, 0, 0, 0, 0, 0, 4]),
];

/// The client's first commit, of `a;`, which observed nothing.
const APPEND: [u8; 19] = [5, 0, 0, 0, 0, 0, 0, 0, 1, 0, 0, 0, 2, 97, 59, 0, 0, 0, 0];

fn rows() -> &'static [(&'static [u8], &'static [u8], &'static [u8])] {
    &ROWS
}

fn fed(alloc: Global) -> Result<WireAnswer, AllocError> {
    let key = Text::from_slice(alloc, b"x".as_slice())?;
    let address = Address {
        kind: Kind::Counter,
        key,
    };
    let mut feed = Feed::new(alloc, 7);
    feed.add(&address, &Delta::AddCounter(3))?;
    Ok(WireAnswer {
        seen: 7,
        given: Given::Feed(feed),
    })
}

fn name(given: &Given) -> &'static [u8] {
    match given {
        Given::Hello(_, _) => b"hello",
        Given::Done => b"done",
        Given::Read(_, _) => b"read",
        Given::Front(_) => b"front",
        Given::Number(_) => b"number",
        Given::Value(_) => b"value",
        Given::Feed(_) => b"feed",
        Given::Late(_, _) => b"late",
        Given::Clash(_) => b"clash",
        Given::Full(_) => b"full",
        Given::Disk => b"disk",
        Given::Held(_, _) => b"held",
    }
}

/// Whether an answer is written as these bytes.
fn is_written(alloc: Global, answer: &WireAnswer, bytes: &[u8]) -> bool {
    encode_answer(alloc, answer).is_ok_and(|written| written.as_slice() == bytes)
}

fn fed_is_written(alloc: Global, answer: &Result<WireAnswer, AllocError>) -> bool {
    match answer {
        Ok(answer) => is_written(alloc, answer, &FED),
        Err(AllocError) => false,
    }
}

fn held_is_written(alloc: Global) -> bool {
    let held = WireAnswer {
        seen: 9,
        given: Given::Held(2, 9),
    };
    is_written(alloc, &held, &HELD)
}

/// Whether what was read is given by this name, and is written as these bytes.
fn is_answer(
    alloc: Global,
    read: &Result<WireAnswer, WireError>,
    wanted: &[u8],
    bytes: &[u8],
) -> bool {
    match read {
        Ok(answer) => name(&answer.given) == wanted && is_written(alloc, answer, bytes),
        Err(_) => false,
    }
}

/// Whether the request of a row was read, and the row's answer is one to it.
fn comes_back(
    alloc: Global,
    request: &Result<Request, WireError>,
    row: &(&'static [u8], &'static [u8], &'static [u8]),
) -> bool {
    match request {
        Ok(request) => is_answer(alloc, &decode_answer(alloc, request, row.2), row.1, row.2),
        Err(_) => false,
    }
}

fn all_come_back(alloc: Global) -> bool {
    for row in rows() {
        if !comes_back(alloc, &decode_request(alloc, row.0), row) {
            return false;
        }
    }
    true
}

#[test]
fn answers_are_their_bytes(rt: HostRuntime) {
    let alloc = rt.alloc();
    answers_are_read();
    what_is_read_is_an_answer();
    assert!(rt; held_is_written(alloc));
    assert!(rt; fed_is_written(alloc, &fed(alloc)));
    assert!(rt; all_come_back(alloc));
    assert!(rt; LONGEST_ANSWER == 4_294_967_295);
}
