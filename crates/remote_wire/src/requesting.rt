//! Requests as bytes, and back.

ghost use Rattle.std.specs.Prelude.{◌≡◌, ◌≤◌, ◌++◌, ◌∷◌, ℕ, true, length, Some, Err, OnOk, IfOk};
ghost use Rattle.record_code.specs.declared.field_error.FieldError.TheVariants as errors;
ghost use Rattle.record_code.specs.Room.{HaveRoom};
ghost use Rattle.record_code.specs.code.Reads.{Reads};
ghost use Rattle.remote_wire.specs.declared.limits.TheConstants.{LONGEST_REQUEST};
ghost use Rattle.remote_wire.specs.declared.tags.RequestTag.TheVariants as asked;
ghost use Rattle.remote_wire.specs.declared.wire_error.WireError.TheVariants as wire_errors;
ghost use Rattle.remote_wire.specs.Spelling.{body_parts, append_parts, request_byte, request_parts, request_bytes};
ghost use Rattle.remote_wire.specs.Forms.{IsBase, IsAppend, IsRequest};
ghost use Rattle.remote_wire.specs.Requests.{prepare_at, append_at, request_of, request_at, request_in};
ghost use Rattle.remote_wire.specs.Asking.{asks_of, asks_at, AsksForRequest};
ghost use Rattle.remote_wire.specs.Laws.{HasSpelling};
ghost use Rattle.remote_wire.specs.code.Decodes.{Decodes};

use crate::limits::LONGEST_REQUEST;
use crate::part::{Part, put_byte, put_list, put_long, take_byte, take_list, within};
use crate::request::{Base, BaseList, Request};
use crate::tags::{REQUEST_TAGS, RequestTag};
use crate::telling::{of_field, only};
use crate::wire_error::WireError;
use abort_witness::{Based, BasedList};
use journal_core::LONGEST_BODY;
use plain_data::Text;
use rdt_types::Address;
use record_code::{FieldError, read_tag, read_text, read_u64, write_byte, write_text};
use std::alloc::{AllocError, Global};

// ---- encoding

/// The byte of a request.
fn byte_of(request: &Request) -> u8
    ensures { result ≡ request_byte request.now }
{
    match request {
        Request::Hello => 1,
        Request::Refresh => 2,
        Request::Read(_) => 3,
        Request::Prepare(_, _) => 4,
        Request::Append(_, _, _) => 5,
        Request::ReadAt(_, _) => 6,
        Request::Subscribe(_) => 7,
        Request::Unsubscribe(_) => 8,
        Request::Take => 9,
        Request::Wait => 10,
    }
}

/// Writes the text of a body, and the bases.
fn put_body(out: &mut Text, body: &[u8], bases: &[Base]) -> Result<(), AllocError>
    ensures written { OnOk result (out.new ≡ out.old ++ body_parts body.now bases.now) }
    ensures form { OnOk result (HaveRoom IsBase bases.now) }
{
    write_text(out, body)?;
    put_list(out, bases)
}

/// Writes what an append names.
fn put_append(out: &mut Text, seq: u64, body: &[u8], bases: &[Base]) -> Result<(), AllocError>
    ensures written { OnOk result (out.new ≡ out.old ++ append_parts seq body.now bases.now) }
    ensures form { OnOk result (IsAppend seq body.now bases.now) }
{
    within(body, LONGEST_BODY)?;
    put_long(out, seq)?;
    put_body(out, body, bases)
}

/// Writes what a request names.
fn put_parts(out: &mut Text, request: &Request) -> Result<(), AllocError>
    ensures written { OnOk result (out.new ≡ out.old ++ request_parts request.now) }
    ensures form { OnOk result (IsRequest request.now) }
{
    match request {
        Request::Read(address) => address.put(out),
        Request::Prepare(shard, observed) => {
            put_byte(out, *shard)?;
            put_list(out, observed.as_slice())
        }
        Request::Append(seq, body, bases) => {
            put_append(out, *seq, body.as_slice(), bases.as_slice())
        }
        Request::ReadAt(address, number) => {
            address.put(out)?;
            put_long(out, *number)
        }
        Request::Subscribe(address) => address.put(out),
        Request::Unsubscribe(address) => address.put(out),
        Request::Hello | Request::Refresh | Request::Take | Request::Wait => Ok(()),
    }
}

/// The bytes of a request, where it has a spelling.
fn spell(alloc: Global, request: &Request) -> Result<Text, AllocError>
    ensures written { IfOk result (λ bytes. bytes ≡ request_bytes request.now) }
    ensures form { IfOk result (λ bytes. IsRequest request.now) }
    ensures short { IfOk result (λ bytes. length bytes ≤ LONGEST_REQUEST) }
{
    let mut out = Text::new(alloc);
    write_byte(&mut out, byte_of(request))?;
    put_parts(&mut out, request)?;
    within(out.as_slice(), LONGEST_REQUEST)?;
    Ok(out)
}

/// The bytes of a request. One that has no spelling is answered as want of memory.
pub fn encode_request(alloc: Global, request: &Request) -> Result<Text, AllocError>
    ensures written { IfOk result (λ bytes. bytes ≡ request_bytes request.now) }

    // It has a spelling, and this is read again as it.
    ensures spelled { IfOk result (λ bytes. HasSpelling request.now) }
    ensures again { IfOk result (λ bytes. request_in bytes ≡ Some request.now) }
{
    spell(alloc, request)
}

// ---- decoding

/// Reads a shard and what was observed in it.
#[tactic(auto, unfolding(record_code::specs::Fields::pair_at))]
fn take_prepare(alloc: Global, bytes: &[u8]) -> Result<(Request, &[u8]), FieldError>
    ensures read { Reads (λ read. (read.0, read.1.now)) result (prepare_at bytes.now) }
    ensures memory { result ≡ Err errors.NoMemory → asks_of asked.Prepare bytes.now ≡ true }
{
    let (shard, rest) = take_byte(bytes)?;
    let (observed, rest) = take_list::<Based>(alloc, rest)?;
    Ok((Request::Prepare(shard, BasedList::from_vec(observed)), rest))
}

/// Reads the number of a commit, the text of its body, and the bases.
#[tactic(auto, unfolding(record_code::specs::Fields::pair_at))]
fn take_append(alloc: Global, bytes: &[u8]) -> Result<(Request, &[u8]), FieldError>
    ensures read { Reads (λ read. (read.0, read.1.now)) result (append_at bytes.now) }
    ensures memory { result ≡ Err errors.NoMemory → asks_of asked.Append bytes.now ≡ true }
{
    let (seq, rest) = read_u64(bytes)?;
    let (body, rest) = read_text(alloc, LONGEST_BODY, rest)?;
    let (bases, rest) = take_list::<Base>(alloc, rest)?;
    Ok((Request::Append(seq, body, BaseList::from_vec(bases)), rest))
}

/// Reads what a request names.
#[tactic(auto, unfolding(crate::specs::Requests::request_of, record_code::specs::Fields::pair_at))]
fn take_parts(alloc: Global, tag: RequestTag, bytes: &[u8]) -> Result<(Request, &[u8]), FieldError>
    ensures read { Reads (λ read. (read.0, read.1.now)) result (request_of tag bytes.now) }
    ensures memory { result ≡ Err errors.NoMemory → asks_of tag bytes.now ≡ true }
{
    match tag {
        RequestTag::Nothing => Err(FieldError::Malformed),
        RequestTag::Hello => Ok((Request::Hello, bytes)),
        RequestTag::Refresh => Ok((Request::Refresh, bytes)),
        RequestTag::Read => {
            let (address, rest) = Address::take(alloc, bytes)?;
            Ok((Request::Read(address), rest))
        }
        RequestTag::Prepare => take_prepare(alloc, bytes),
        RequestTag::Append => take_append(alloc, bytes),
        RequestTag::ReadAt => {
            let (address, rest) = Address::take(alloc, bytes)?;
            let (number, rest) = read_u64(rest)?;
            Ok((Request::ReadAt(address, number), rest))
        }
        RequestTag::Subscribe => {
            let (address, rest) = Address::take(alloc, bytes)?;
            Ok((Request::Subscribe(address), rest))
        }
        RequestTag::Unsubscribe => {
            let (address, rest) = Address::take(alloc, bytes)?;
            Ok((Request::Unsubscribe(address), rest))
        }
        RequestTag::Take => Ok((Request::Take, bytes)),
        RequestTag::Wait => Ok((Request::Wait, bytes)),
    }
}

/// Reads a request from the front of bytes.
#[tactic(auto, unfolding(crate::specs::Requests::request_at))]
fn take_request(alloc: Global, bytes: &[u8]) -> Result<(Request, &[u8]), FieldError>
    ensures read { Reads (λ read. (read.0, read.1.now)) result (request_at bytes.now) }
    ensures memory { result ≡ Err errors.NoMemory → asks_at bytes.now ≡ true }
{
    let (tag, rest) = read_tag(&REQUEST_TAGS, bytes)?;
    take_parts(alloc, tag, rest)
}

/// The request that the bytes are, all of them. They are read alone, and memory is taken for what was read.
pub fn decode_request(alloc: Global, bytes: &[u8]) -> Result<Request, WireError>
    // It is the one that they spell; and `BadWire` says that they spell none.
    ensures decoded { Decodes result (request_in bytes.now) }

    // Memory is wanting only where it is asked for: what is refused before that is told as `BadWire`.
    ensures memory { result ≡ Err wire_errors.NoMemory → AsksForRequest bytes.now }
{
    if bytes.len() > LONGEST_REQUEST {
        return Err(WireError::BadWire);
    }
    match take_request(alloc, bytes) {
        Ok((request, rest)) => only(request, rest),
        Err(error) => Err(of_field(error)),
    }
}
