//! Tests of how long a frame of a request may be, and of how many there may be.

use crate::serving::serve_alone;
use dio_core::{Got, MemLink, Source};
use script_runner::WHOLE;
use std::alloc::{AllocError, Global};
use std::sync::Wait;
use wire_server::{MALFORMED, MOST_REQUESTS, TOO_MANY_REQUESTS};

/// How long a request is at most.
const LONGEST: usize = 33_554_432;

/// A frame with so many bytes, none of which is a request's first, and the byte `b` behind it.
fn frame_of(alloc: Global, length: u32) -> Result<Vec<u8>, AllocError> {
    let mut bytes = Vec::new(alloc);
    bytes.extend_from_slice(&length.to_be_bytes())?;
    bytes.resize(4 + (length as usize).min(LONGEST + 1), b'a')?;
    bytes.push(b'b')?;
    Ok(bytes)
}

/// The next byte that a link gives.
fn next_of(link: &mut MemLink) -> Option<u8> {
    let mut byte = [0];
    match link.read(&mut byte) {
        Got::Bytes(_) => Some(byte[0]),
        _ => None,
    }
}

/// Whether a link that gives these bytes is refused, with nothing answered, and this is the next byte that it gives then.
fn is_refused_before<R: Wait>(rt: &R, alloc: Global, bytes: &[u8], next: u8) -> bool {
    let Ok(mut link) = MemLink::new(alloc, bytes, 65_536, &[], &[]) else {
        return false;
    };
    serve_alone(rt, alloc, &mut link) == Ok((MALFORMED, 0))
        && link.sink.taken().is_empty()
        && next_of(&mut link) == Some(next)
}

/// Whether a frame of such a length is refused before this byte.
fn is_frame_refused<R: Wait>(rt: &R, alloc: Global, length: u32, next: u8) -> bool {
    match frame_of(alloc, length) {
        Ok(bytes) => is_refused_before(rt, alloc, bytes.as_slice(), next),
        Err(_) => false,
    }
}

/// A frame of 1 byte and one of 33,554,432 are read whole. Of one that has no byte, or one more, the length alone is read.
#[test]
fn a_frame_has_a_length(rt: HostRuntime) {
    assert!(rt; is_frame_refused(&rt, rt.alloc(), 0, b'b'));
    assert!(rt; is_frame_refused(&rt, rt.alloc(), 1, b'b'));
    assert!(rt; is_frame_refused(&rt, rt.alloc(), 33_554_432, b'b'));
    assert!(rt; is_frame_refused(&rt, rt.alloc(), 33_554_433, b'a'));
}

/// So many greetings.
fn greetings(alloc: Global, count: u32) -> Result<Vec<u8>, AllocError> {
    let mut all = Vec::new(alloc);
    for _ in 0..count {
        all.extend_from_slice(b"\x00\x00\x00\x01\x01")?;
    }
    Ok(all)
}

/// How many bytes the answer to a greeting has, with its length.
const ANSWERED: usize = 18;

/// Whether a link that gives these bytes comes to a status, with a million greetings answered.
fn all_are_answered<R: Wait>(rt: &R, alloc: Global, bytes: &[u8], status: u8) -> bool {
    let Ok(mut link) = MemLink::new(alloc, bytes, 65_536, &[], &[]) else {
        return false;
    };
    serve_alone(rt, alloc, &mut link) == Ok((status, 0))
        && link.sink.passed().len() == ANSWERED * 1_000_000
}

/// Whether so many greetings come to a status, with a million answered.
fn are_greeted<R: Wait>(rt: &R, alloc: Global, count: u32, status: u8) -> bool {
    match greetings(alloc, count) {
        Ok(bytes) => all_are_answered(rt, alloc, bytes.as_slice(), status),
        Err(_) => false,
    }
}

/// A million requests are answered, and no more.
#[test]
fn a_million_requests_are_answered(rt: HostRuntime) {
    assert!(rt; MOST_REQUESTS == 1_000_000);
    assert!(rt; are_greeted(&rt, rt.alloc(), 1_000_000, WHOLE));
    assert!(rt; are_greeted(&rt, rt.alloc(), 1_000_001, TOO_MANY_REQUESTS));
}
