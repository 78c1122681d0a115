//! Requests: one that is put together by hand, and bytes of each.

use plain_data::Text;
use rdt_types::{Address, Kind};
use remote_wire::{
    Base, BaseList, LONGEST_REQUEST, Request, WireError, decode_request, encode_request,
    requests_are_read, what_is_read_is_a_request,
};
use std::alloc::{AllocError, Global};

/// A client's first commit: its text is `a;`, and it observed the counter x as it was after 2 commits.
const APPEND: [u8; 33] = [
    5, 0, 0, 0, 0, 0, 0, 0, 1, 0, 0, 0, 2, 97, 59, 0, 0, 0, 1, 1, 0, 0, 0, 1, 120, 0, 0, 0, 0, 0,
    0, 0, 2,
];

/// Each request's name, and bytes of one. Addresses are of the counter x. The shard 1 is prepared, in which x was observed
/// as it was after 2 commits.
static ROWS: [(&[u8], &[u8]); 10] = [
    (b"hello", &[1]),
    (b"refresh", &[2]),
    (b"read", &[3, 1, 0, 0, 0, 1, 120]),
    (
        b"prepare",
        &[
            4, 1, 0, 0, 0, 1, 1, 0, 0, 0, 1, 120, 1, 0, 0, 0, 0, 0, 0, 0, 2,
        ],
    ),
    (b"append", &APPEND),
    (b"read at", &[6, 1, 0, 0, 0, 1, 120, 0, 0, 0, 0, 0, 0, 0, 2]),
    (b"subscribe", &[7, 1, 0, 0, 0, 1, 120]),
    (b"unsubscribe", &[8, 1, 0, 0, 0, 1, 120]),
    (b"take", &[9]),
    (b"wait", &[10]),
];

fn rows() -> &'static [(&'static [u8], &'static [u8])] {
    &ROWS
}

fn append(alloc: Global) -> Result<Request, AllocError> {
    let key = Text::from_slice(alloc, b"x".as_slice())?;
    let address = Address {
        kind: Kind::Counter,
        key,
    };
    let mut bases = BaseList::new(alloc);
    bases.push(Base { address, base: 2 })?;
    let body = Text::from_slice(alloc, b"a;".as_slice())?;
    Ok(Request::Append(1, body, bases))
}

fn name(request: &Request) -> &'static [u8] {
    match request {
        Request::Hello => b"hello",
        Request::Refresh => b"refresh",
        Request::Read(_) => b"read",
        Request::Prepare(_, _) => b"prepare",
        Request::Append(_, _, _) => b"append",
        Request::ReadAt(_, _) => b"read at",
        Request::Subscribe(_) => b"subscribe",
        Request::Unsubscribe(_) => b"unsubscribe",
        Request::Take => b"take",
        Request::Wait => b"wait",
    }
}

/// Whether a request is written as these bytes.
fn is_written(alloc: Global, request: &Request, bytes: &[u8]) -> bool {
    encode_request(alloc, request).is_ok_and(|written| written.as_slice() == bytes)
}

/// Whether the commit is written as its bytes.
fn append_is_written(alloc: Global, request: &Result<Request, AllocError>) -> bool {
    match request {
        Ok(request) => is_written(alloc, request, &APPEND),
        Err(AllocError) => false,
    }
}

/// Whether what was read is the row's request, and is written as the row's bytes.
fn comes_back(
    alloc: Global,
    read: &Result<Request, WireError>,
    row: &(&'static [u8], &'static [u8]),
) -> bool {
    match read {
        Ok(request) => name(request) == row.0 && is_written(alloc, request, row.1),
        Err(_) => false,
    }
}

fn all_come_back(alloc: Global) -> bool {
    for row in rows() {
        if !comes_back(alloc, &decode_request(alloc, row.1), row) {
            return false;
        }
    }
    true
}

#[test]
fn requests_are_their_bytes(rt: HostRuntime) {
    let alloc = rt.alloc();
    requests_are_read();
    what_is_read_is_a_request();
    assert!(rt; append_is_written(alloc, &append(alloc)));
    assert!(rt; all_come_back(alloc));
    assert!(rt; LONGEST_REQUEST == 33_554_432);
}
