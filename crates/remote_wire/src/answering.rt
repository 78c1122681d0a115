//! Answers as bytes, and back.

ghost use Rattle.std.specs.Prelude.{◌≡◌, ◌≢◌, ◌≤◌, ◌++◌, ◌∷◌, ℕ, true, length, Some, Err, OnOk, IfOk};
ghost use Rattle.record_code.specs.declared.field_error.FieldError.TheVariants as errors;
ghost use Rattle.record_code.specs.code.Reads.{Reads};
ghost use Rattle.remote_wire.specs.declared.answer_limits.TheConstants.{LONGEST_ANSWER};
ghost use Rattle.remote_wire.specs.declared.answer_tags.GivenTag.TheVariants as gifts;
ghost use Rattle.remote_wire.specs.declared.request.Request.{Request};
ghost use Rattle.remote_wire.specs.declared.wire_error.WireError.TheVariants as wire_errors;
ghost use Rattle.remote_wire.specs.AnswerSpelling.{short_bytes, given_byte, given_parts, answer_bytes};
ghost use Rattle.remote_wire.specs.AnswerForms.{IsFourBytes, IsGiven};
ghost use Rattle.remote_wire.specs.Answers as spec;
ghost use Rattle.remote_wire.specs.Answers.{given_of, given_feed_at, rest_at, answer_at, answer_in, IsAnswerTo};
ghost use Rattle.remote_wire.specs.Asking.{gives_of, gives_rest, gives_at, AsksForAnswer};
ghost use Rattle.remote_wire.specs.AnswerLaws.{HasAnswerSpelling};
ghost use Rattle.remote_wire.specs.code.Decodes.{Decodes};

use crate::answer::{Given, WireAnswer};
use crate::answer_limits::LONGEST_ANSWER;
use crate::answer_tags::{ANSWER_TAGS, AnswerTag, GivenTag};
use crate::feeds::{feed_of, take_changes};
use crate::part::{Part, put_byte, put_long, take_byte, within};
use crate::request::Request;
use crate::suiting::{given_tag, suits};
use crate::telling::{of_field, only};
use crate::wire_error::WireError;
use abort_witness::Witness;
use plain_data::Text;
use rdt_types::Value;
use record_code::{FieldError, read_tag, read_u32, read_u64, write_byte, write_list, write_u32};
use std::alloc::{AllocError, Global};

// ---- encoding

/// Writes a number of four bytes.
fn put_short(out: &mut Text, number: u32) -> Result<(), AllocError>
    ensures written { OnOk result (out.new ≡ out.old ++ short_bytes number) }
    ensures form { IsFourBytes number }
{
    write_u32(out, number)
}

/// The byte of how a request is answered.
fn byte_of(given: &Given) -> u8
    ensures { result ≡ given_byte given.now }
{
    match given {
        Given::Late(_, _) => 1,
        Given::Clash(_) => 2,
        Given::Full(_) => 3,
        Given::Disk => 4,
        Given::Held(_, _) => 5,
        Given::Hello(_, _)
        | Given::Done
        | Given::Read(_, _)
        | Given::Front(_)
        | Given::Number(_)
        | Given::Value(_)
        | Given::Feed(_) => 0,
    }
}

/// Writes what is given.
fn put_parts(out: &mut Text, given: &Given) -> Result<(), AllocError>
    ensures written { OnOk result (out.new ≡ out.old ++ given_parts given.now) }
    ensures form { OnOk result (IsGiven given.now) }
{
    match given {
        Given::Hello(client, shards) => {
            put_short(out, *client)?;
            put_byte(out, *shards)
        }
        Given::Read(base, value) => {
            put_long(out, *base)?;
            value.put(out)
        }
        Given::Front(front) => put_long(out, *front),
        Given::Number(number) => put_long(out, *number),
        Given::Value(value) => value.put(out),
        Given::Feed(feed) => {
            put_long(out, feed.to())?;
            write_list(out, feed.changes().as_slice())
        }
        Given::Late(number, horizon) => {
            put_long(out, *number)?;
            put_long(out, *horizon)
        }
        Given::Clash(witness) => witness.put(out),
        Given::Full(limit) => put_short(out, *limit),
        Given::Held(client, number) => {
            put_short(out, *client)?;
            put_long(out, *number)
        }
        Given::Done | Given::Disk => Ok(()),
    }
}

/// The bytes of an answer, where it has a spelling.
fn spell(alloc: Global, seen: u64, given: &Given) -> Result<Text, AllocError>
    ensures written { IfOk result (λ bytes. bytes ≡ answer_bytes (record { seen = seen; given = given.now })) }
    ensures spelled { IfOk result (λ bytes. HasAnswerSpelling (record { seen = seen; given = given.now })) }
{
    let mut out = Text::new(alloc);
    write_byte(&mut out, byte_of(given))?;
    put_long(&mut out, seen)?;
    put_parts(&mut out, given)?;
    within(out.as_slice(), LONGEST_ANSWER)?;
    Ok(out)
}

/// The bytes of an answer. One that has no spelling is answered as want of memory.
pub fn encode_answer(alloc: Global, answer: &WireAnswer) -> Result<Text, AllocError>
    ensures written { IfOk result (λ bytes. bytes ≡ answer_bytes answer.now) }

    // It has a spelling, and this is read again as it by whoever made a request that it is an answer to.
    ensures spelled { IfOk result (λ bytes. HasAnswerSpelling answer.now) }
    ensures again { IfOk result (λ bytes. (r : Request) → IsAnswerTo r answer.now → answer_in r bytes ≡ Some answer.now) }
{
    spell(alloc, answer.seen, &answer.given)
}

// ---- decoding

/// Reads a feed.
#[tactic(auto, unfolding(record_code::specs::Fields::pair_at))]
fn take_feed(alloc: Global, bytes: &[u8]) -> Result<(Given, &[u8]), FieldError>
    ensures read { Reads (λ read. (read.0, read.1.now)) result (given_feed_at bytes.now) }
    ensures memory { result ≡ Err errors.NoMemory → gives_of gifts.Feed bytes.now ≡ true }
{
    let (to, rest) = read_u64(bytes)?;
    let (changes, rest) = take_changes(alloc, rest)?;
    Ok((Given::Feed(feed_of(alloc, to, &changes)?), rest))
}

/// Reads what is given, by what it is.
#[tactic(auto, unfolding(crate::specs::Answers::given_of, record_code::specs::Fields::pair_at))]
fn take_parts(alloc: Global, gift: GivenTag, bytes: &[u8]) -> Result<(Given, &[u8]), FieldError>
    ensures read { Reads (λ read. (read.0, read.1.now)) result (given_of gift bytes.now) }
    ensures memory { result ≡ Err errors.NoMemory → gives_of gift bytes.now ≡ true }
{
    match gift {
        GivenTag::Hello => {
            let (client, rest) = read_u32(bytes)?;
            let (shards, rest) = take_byte(rest)?;
            Ok((Given::Hello(client, shards), rest))
        }
        GivenTag::Done => Ok((Given::Done, bytes)),
        GivenTag::Read => {
            let (base, rest) = read_u64(bytes)?;
            let (value, rest) = Value::take(alloc, rest)?;
            Ok((Given::Read(base, value), rest))
        }
        GivenTag::Front => {
            let (front, rest) = read_u64(bytes)?;
            Ok((Given::Front(front), rest))
        }
        GivenTag::Number => {
            let (number, rest) = read_u64(bytes)?;
            Ok((Given::Number(number), rest))
        }
        GivenTag::Value => {
            let (value, rest) = Value::take(alloc, bytes)?;
            Ok((Given::Value(value), rest))
        }
        GivenTag::Feed => take_feed(alloc, bytes),
        GivenTag::Late => {
            let (number, rest) = read_u64(bytes)?;
            let (horizon, rest) = read_u64(rest)?;
            Ok((Given::Late(number, horizon), rest))
        }
        GivenTag::Clash => {
            let (witness, rest) = Witness::take(alloc, bytes)?;
            Ok((Given::Clash(witness), rest))
        }
        GivenTag::Full => {
            let (limit, rest) = read_u32(bytes)?;
            Ok((Given::Full(limit), rest))
        }
        GivenTag::Disk => Ok((Given::Disk, bytes)),
        GivenTag::Held => {
            let (client, rest) = read_u32(bytes)?;
            let (number, rest) = read_u64(rest)?;
            Ok((Given::Held(client, number), rest))
        }
    }
}

/// The answer that gives this, where it suits. What doesn't is never told as want of memory.
fn suited<'a>(
    request: &Request,
    seen: u64,
    given: Given,
    rest: &'a [u8],
) -> Result<(WireAnswer, &'a [u8]), FieldError>
    ensures read { Reads (λ read. (read.0, read.1.now)) result
        (spec.suited request.now seen (given, rest.now)) }
    ensures told { result ≢ Err errors.NoMemory }
{
    if suits(request, seen, &given) {
        Ok((WireAnswer { seen, given }, rest))
    } else {
        Err(FieldError::Malformed)
    }
}

/// Reads what stands behind the byte of an answer.
#[tactic(auto, unfolding(crate::specs::Answers::rest_at))]
fn take_rest<'a>(
    alloc: Global,
    request: &Request,
    tag: AnswerTag,
    bytes: &'a [u8],
) -> Result<(WireAnswer, &'a [u8]), FieldError>
    ensures read { Reads (λ read. (read.0, read.1.now)) result (rest_at request.now tag bytes.now) }
    ensures memory { result ≡ Err errors.NoMemory → gives_rest request.now tag bytes.now ≡ true }
{
    let (seen, rest) = read_u64(bytes)?;
    let Some(gift) = given_tag(request, tag) else {
        return Err(FieldError::Malformed);
    };
    let (given, rest) = take_parts(alloc, gift, rest)?;
    suited(request, seen, given, rest)
}

/// Reads an answer to a request from the front of bytes.
#[tactic(auto, unfolding(crate::specs::Answers::answer_at))]
fn take_answer<'a>(
    alloc: Global,
    request: &Request,
    bytes: &'a [u8],
) -> Result<(WireAnswer, &'a [u8]), FieldError>
    ensures read { Reads (λ read. (read.0, read.1.now)) result (answer_at request.now bytes.now) }
    ensures memory { result ≡ Err errors.NoMemory → gives_at request.now bytes.now ≡ true }
{
    let (tag, rest) = read_tag(&ANSWER_TAGS, bytes)?;
    take_rest(alloc, request, tag, rest)
}

/// The answer to a request that the bytes are, all of them. Memory is taken for what was read alone.
pub fn decode_answer(
    alloc: Global,
    request: &Request,
    bytes: &[u8],
) -> Result<WireAnswer, WireError>
    // It is the one that they spell; and `BadWire` says that they spell none that is an answer to this request.
    ensures decoded { Decodes result (answer_in request.now bytes.now) }

    // Memory is wanting only where it is asked for: what is refused before that is told as `BadWire`.
    ensures memory { result ≡ Err wire_errors.NoMemory → AsksForAnswer request.now bytes.now }
{
    if bytes.len() > LONGEST_ANSWER {
        return Err(WireError::BadWire);
    }
    match take_answer(alloc, request, bytes) {
        Ok((answer, rest)) => only(answer, rest),
        Err(error) => Err(of_field(error)),
    }
}
