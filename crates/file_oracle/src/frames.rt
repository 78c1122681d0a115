//! The payloads of the open frames that stand one behind another.

ghost use Rattle.std.specs.Prelude.{◌≡◌, ◌≤◌, ◌<◌, ◌+◌, [], ◌∷◌, None, Some, length, IfOk, IfSome, MatchOption};
ghost use Rattle.commit_file.specs.Kept as spec;

use plain_data::{Sequence, Text};
use std::alloc::{AllocError, Global};

/// The byte of a closed gate.
pub(crate) const CLOSED: u8 = 0;

/// The byte of an open gate.
pub(crate) const OPEN: u8 = 1;

/// The byte of a mark.
pub(crate) const MARK: u8 = 2;

/// How many bytes of a frame stand before its payload.
pub(crate) const BEFORE_PAYLOAD: usize = 5;

/// The payload behind a gate, where its length and its bytes are there.
fn payload_behind(bytes: &[u8]) -> Option<&[u8]>
    ensures payload { MatchOption result (spec.payload_behind bytes.now ≡ None) (λ p. spec.payload_behind bytes.now ≡ Some p.now) }
    ensures within { IfSome result (λ p. 4 + length p.now ≤ length bytes.now) }
{
    if bytes.len() < 4 {
        return None;
    }
    let count = u32::from_be_bytes([bytes[0], bytes[1], bytes[2], bytes[3]]) as usize;
    bytes[4..].get(..count)
}

/// The payload of the open frame that is whole and begins here.
fn payload_at(bytes: &[u8]) -> Option<&[u8]>
    ensures payload { MatchOption result (spec.payload_at bytes.now ≡ None) (λ p. spec.payload_at bytes.now ≡ Some p.now) }
    ensures within { IfSome result (λ p. 5 + length p.now ≤ length bytes.now) }
{
    let (gate, behind) = bytes.split_first()?;
    if *gate == OPEN {
        payload_behind(behind)
    } else {
        None
    }
}

/// The payload of the open frame that is whole and begins here, and what stands behind it.
fn next_frame(bytes: &[u8]) -> Option<(&[u8], &[u8])>
    ensures listed { MatchOption result (spec.payloads bytes.now ≡ [])
        (λ parts. spec.payloads bytes.now ≡ parts.0.now ∷ spec.payloads parts.1.now) }
    ensures behind { MatchOption result (spec.behind_frames bytes.now ≡ bytes.now)
        (λ parts. spec.behind_frames bytes.now ≡ spec.behind_frames parts.1.now) }
    ensures shorter { IfSome result (λ parts. length parts.1.now < length bytes.now) }
{
    let Some(payload) = payload_at(bytes) else {
        return None;
    };
    let (_, rest) = bytes.split_at(BEFORE_PAYLOAD + payload.len());
    Some((payload, rest))
}

/// The payloads of the open frames that begin here, up to the first that is closed or not whole.
pub(crate) fn payloads(alloc: Global, bytes: &[u8]) -> Result<Sequence<Text>, AllocError>
    ensures { IfOk result (λ ps. ps ≡ spec.payloads bytes.now) }
{
    let Some((payload, rest)) = next_frame(bytes) else {
        return Ok(Sequence::new(alloc));
    };
    let first = Text::from_slice(alloc, payload)?;
    let mut all = payloads(alloc, rest)?;
    all.insert(0, first)?;
    Ok(all)
}

/// What stands behind the open frames that begin here.
pub(crate) fn behind_frames(bytes: &[u8]) -> &[u8]
    ensures { result.now ≡ spec.behind_frames bytes.now }
{
    match next_frame(bytes) {
        None => bytes,
        Some((_, rest)) => behind_frames(rest),
    }
}

/// The payloads behind a mark, where one stands here.
pub(crate) fn payloads_marked(alloc: Global, bytes: &[u8]) -> Result<Sequence<Text>, AllocError>
    ensures { IfOk result (λ ps. ps ≡ spec.payloads_marked bytes.now) }
{
    match bytes.split_first() {
        Some((mark, behind)) if *mark == MARK => payloads(alloc, behind),
        _ => Ok(Sequence::new(alloc)),
    }
}
