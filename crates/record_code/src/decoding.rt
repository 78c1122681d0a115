//! Bytes read as a commit, with the body that its text is.

ghost use Rattle.std.specs.Prelude.{◌≡◌, ◌≢◌, ◌⊎◌, ◌-◌, ◌<◌, ◌≤◌, ◌^◌, length, [], IfOk, Some, Ok, Err};
ghost use Rattle.std.specs.List.{list_all};
ghost use Rattle.std.specs.FinMap.Entries.{is_sorted};
ghost use Rattle.rdt_types.specs.Addresses.{address_cmp};
ghost use Rattle.commit_file.specs.declared.version.Version.TheVariants.{One, Two};
ghost use Rattle.txn_lang.specs.Tree.{tree};
ghost use Rattle.record_code.specs.declared.field_error.FieldError.TheVariants as errors;
ghost use Rattle.record_code.specs.declared.decode_error.DecodeError.TheVariants.{NoMemory};
ghost use Rattle.record_code.specs.Reading as spec;
ghost use Rattle.record_code.specs.Reading.{positive_at, client_at, body_at, outcome_at, deltas_at};
ghost use Rattle.record_code.specs.Payloads.{field, end_at, decoded};
ghost use Rattle.record_code.specs.code.Reads.{Reads, Tells, Placed, Decodes, DecodesAs, NamesPlace};

use crate::body::read_body;
use crate::decode_error::DecodeError;
use crate::field::{Field, read_list};
use crate::field_error::FieldError;
use crate::numbers::{read_u32, read_u64};
use commit_file::Version;
use journal_core::FIRST_UNTOLD_CLIENT;
use rdt_types::{Address, Delta, DeltaMap, Outcome};
use std::alloc::Global;
use txn_lang::{Checked, Commit};
use txn_trees::Body;

/// Reads a number from 1.
fn read_positive(bytes: &[u8]) -> Result<(u64, &[u8]), FieldError>
    ensures read { Reads (λ read. (read.0, read.1.now)) result (positive_at bytes.now) }
    ensures told { result ≢ Err errors.NoMemory }
{
    let (number, rest) = read_u64(bytes)?;
    if 0 < number {
        Ok((number, rest))
    } else {
        Err(FieldError::Malformed)
    }
}

/// Reads a client that is told of.
fn read_client(bytes: &[u8]) -> Result<(u32, &[u8]), FieldError>
    ensures read { Reads (λ read. (read.0, read.1.now)) result (client_at bytes.now) }
    ensures told { result ≢ Err errors.NoMemory }
{
    let (client, rest) = read_u32(bytes)?;
    if client < FIRST_UNTOLD_CLIENT {
        Ok((client, rest))
    } else {
        Err(FieldError::Malformed)
    }
}

/// Whether addresses rise strictly.
fn rise(pairs: &[(Address, Delta)]) -> bool
    ensures { result ≡ is_sorted address_cmp pairs.now }
{
    pairs.is_sorted_by(|a, b| a.0.cmp(&b.0).is_lt())
}

/// Whether each delta is one of its address' kind.
fn suit(pairs: &[(Address, Delta)]) -> bool
    ensures { result ≡ list_all spec.suits pairs.now }
{
    for (address, delta) in pairs {
        if delta.kind() != address.kind {
            return false;
        }
    }
    true
}

/// Whether there may be these deltas.
fn may_write(outcome: &Outcome, pairs: &[(Address, Delta)]) -> bool
    ensures { result ≡ spec.may_write outcome.now pairs.now }
{
    match outcome {
        Outcome::Ok(_) => true,
        _ => pairs.is_empty(),
    }
}

/// The deltas of a commit with this outcome, where they may be these.
fn as_deltas(outcome: &Outcome, pairs: Vec<(Address, Delta)>) -> Result<DeltaMap, FieldError>
    ensures tells { Tells (λ d. d) result pairs.items (spec.are_deltas outcome.now pairs.items) }
    ensures told { result ≢ Err errors.NoMemory }
{
    if rise(&pairs) && suit(&pairs) && may_write(outcome, &pairs) {
        Ok(DeltaMap::from_vec(pairs))
    } else {
        Err(FieldError::Malformed)
    }
}

/// Reads the deltas of a commit with this outcome.
pub fn read_deltas<'a>(
    alloc: Global,
    version: Version,
    outcome: &Outcome,
    bytes: &'a [u8],
) -> Result<(DeltaMap, &'a [u8]), FieldError>
    ensures { Reads (λ read. (read.0, read.1.now)) result (deltas_at version outcome.now bytes.now) }
{
    let (pairs, rest) = read_list(alloc, version, bytes)?;
    Ok((as_deltas(outcome, pairs)?, rest))
}

/// Where nothing was read, the place is named. One that four bytes don't tell is answered as want of memory.
fn placed<T>(whole: &[u8], rest: &[u8], read: Result<T, FieldError>) -> Result<T, DecodeError>
    ensures place { Placed (length whole.now - length rest.now) read result }
    ensures fits { result ≡ Err NoMemory → (read ≡ Err errors.NoMemory) ⊎ (2 ^ 32 ≤ length whole.now) }
{
    match read {
        Ok(value) => Ok(value),
        Err(FieldError::NoMemory) => Err(DecodeError::NoMemory),
        Err(FieldError::Malformed) => match u32::try_from(whole.len().saturating_sub(rest.len())) {
            Ok(place) => Err(DecodeError::BadRecord(place)),
            Err(_) => Err(DecodeError::NoMemory),
        },
    }
}

/// The field of a number.
fn number_field<'a>(whole: &[u8], rest: &'a [u8]) -> Result<(u64, &'a [u8]), DecodeError>
    ensures read { DecodesAs (λ x. x) result (field whole.now positive_at rest.now) }
    ensures told { result ≡ Err NoMemory → 2 ^ 32 ≤ length whole.now }
{
    placed(whole, rest, read_positive(rest))
}

/// The field of a client.
fn client_field<'a>(whole: &[u8], rest: &'a [u8]) -> Result<(u32, &'a [u8]), DecodeError>
    ensures read { DecodesAs (λ x. x) result (field whole.now client_at rest.now) }
    ensures told { result ≡ Err NoMemory → 2 ^ 32 ≤ length whole.now }
{
    placed(whole, rest, read_client(rest))
}

/// The field of a body.
fn body_field<'a>(
    alloc: Global,
    version: Version,
    whole: &[u8],
    rest: &'a [u8],
) -> Result<(Checked, &'a [u8]), DecodeError>
    ensures text { DecodesAs (λ body. body.source) result (field whole.now (body_at version) rest.now) }
    ensures tree { IfOk result (λ read. tree read.0.source ≡ Some read.0.body) }
{
    placed(whole, rest, read_body(alloc, version, rest))
}

/// The field of an outcome.
fn outcome_field<'a>(
    alloc: Global,
    version: Version,
    whole: &[u8],
    rest: &'a [u8],
) -> Result<(Outcome, &'a [u8]), DecodeError>
    ensures { DecodesAs (λ x. x) result (field whole.now outcome_at rest.now) }
{
    placed(whole, rest, Outcome::read(alloc, version, rest))
}

/// The field of deltas.
fn deltas_field<'a>(
    alloc: Global,
    version: Version,
    outcome: &Outcome,
    whole: &[u8],
    rest: &'a [u8],
) -> Result<(DeltaMap, &'a [u8]), DecodeError>
    ensures { DecodesAs (λ x. x) result (field whole.now (deltas_at version outcome.now) rest.now) }
{
    placed(whole, rest, read_deltas(alloc, version, outcome, rest))
}

/// The end of the bytes.
fn end(whole: &[u8], rest: &[u8]) -> Result<(), DecodeError>
    ensures read { Decodes (λ nothing. (nothing, [])) result (field whole.now end_at rest.now) }
    ensures told { result ≡ Err NoMemory → 2 ^ 32 ≤ length whole.now }
{
    if rest.is_empty() {
        Ok(())
    } else {
        placed(whole, rest, Err(FieldError::Malformed))
    }
}

/// The commit that the bytes are in a payload of a version, and the body that its text is.
#[tactic(auto, unfolding(crate::specs::Payloads::decoded))]
fn decode_by(alloc: Global, version: Version, bytes: &[u8]) -> Result<(Commit, Body), DecodeError>
    ensures commit { Decodes (λ read. read.0) result (decoded version bytes.now) }
    ensures tree { IfOk result (λ read. tree read.0.body ≡ Some read.1) }
{
    let (number, rest) = number_field(bytes, bytes)?;
    let (client, rest) = client_field(bytes, rest)?;
    let (seq, rest) = number_field(bytes, rest)?;
    let (body, rest) = body_field(alloc, version, bytes, rest)?;
    let (outcome, rest) = outcome_field(alloc, version, bytes, rest)?;
    let (deltas, rest) = deltas_field(alloc, version, &outcome, bytes, rest)?;
    end(bytes, rest)?;
    let commit = Commit {
        number,
        client,
        seq,
        body: body.source,
        outcome,
        deltas,
    };
    Ok((commit, body.body))
}

/// The commit that the bytes are, all of them, in a payload of a version, and the body that its text is. So whoever is to run it
/// needn't read the text again.
pub fn decode_with_body(
    alloc: Global,
    version: Version,
    bytes: &[u8],
) -> Result<(Commit, Body), DecodeError>
    ensures read { IfOk result (λ read. decoded version bytes.now ≡ Ok read.0) }
    ensures tree { IfOk result (λ read. tree read.0.body ≡ Some read.1) }

    // Else they are none, and this is the place.
    ensures refused { NamesPlace version bytes.now result }
{
    decode_by(alloc, version, bytes)
}

/// The commit that the bytes are, all of them, in a payload of version 2.
pub fn decode(alloc: Global, bytes: &[u8]) -> Result<Commit, DecodeError>
    ensures read { IfOk result (λ commit. decoded Two bytes.now ≡ Ok commit) }

    // Else they are none, and this is the place.
    ensures refused { NamesPlace Two bytes.now result }
{
    let (commit, _body) = decode_with_body(alloc, Version::Two, bytes)?;
    Ok(commit)
}

/// The commit that the bytes are, all of them, in a payload of version 1.
pub fn decode_old(alloc: Global, bytes: &[u8]) -> Result<Commit, DecodeError>
    ensures read { IfOk result (λ commit. decoded One bytes.now ≡ Ok commit) }

    // Else they are none, and this is the place.
    ensures refused { NamesPlace One bytes.now result }
{
    let (commit, _body) = decode_with_body(alloc, Version::One, bytes)?;
    Ok(commit)
}
