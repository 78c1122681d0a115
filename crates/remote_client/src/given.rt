//! What was given in an answer, as what a backend answers. An answer to a request has nothing else to give than is read of it
//! here: a fault in its place is never told.

ghost use Rattle.std.specs.Prelude.{◌≡◌, ℕ, List};
ghost use Rattle.rdt_types.specs.declared.address.Address.{Address as SpecAddress};
ghost use Rattle.abort_witness.specs.declared.witness.Based.{Based as SpecBased};
ghost use Rattle.docc_prepare.specs.Calls.{number_answered, snap_answered, done_answered, feed_answered};
ghost use Rattle.docc_prepare.specs.Calls.{front_answered, commit_answered, value_answered};
ghost use Rattle.remote_wire.specs.declared.request.Base.{Base as SpecBase};
ghost use Rattle.remote_wire.specs.declared.request.Request.TheVariants as request;
ghost use Rattle.remote_client.specs.Asking.{outcome_of, done_outcome};

use change_feed::Feed;
use docc_prepare::{AppendError, PrepareError, ReadAtError, StoreError};
use journal_core::Barred;
use rdt_types::Value;
use remote_wire::{Given, WireAnswer};
use txn_lang::Snap;
use version_shard::Prepared;

/// How many commits there are.
pub(crate) fn number_of(answer: Result<WireAnswer, StoreError>) -> Result<u64, StoreError>
    ensures { number_answered result ≡ outcome_of request.Refresh answer }
{
    match answer {
        Ok(
            WireAnswer {
                seen,
                given: Given::Done,
            },
        ) => Ok(seen),
        Ok(_) => Err(StoreError::Fault),
        Err(e) => Err(e),
    }
}

/// That it was done.
pub(crate) fn done_of(answer: Result<WireAnswer, StoreError>) -> Result<(), StoreError>
    ensures { done_answered result ≡ done_outcome answer }
{
    match answer {
        Ok(
            WireAnswer {
                given: Given::Done,
                ..
            },
        ) => Ok(()),
        Ok(_) => Err(StoreError::Fault),
        Err(e) => Err(e),
    }
}

/// A value with its base.
pub(crate) fn snap_of(answer: Result<WireAnswer, StoreError>) -> Result<Snap, StoreError>
    ensures { (address : SpecAddress) → snap_answered result ≡ outcome_of (request.Read address) answer }
{
    match answer {
        Ok(
            WireAnswer {
                given: Given::Read(base, value),
                ..
            },
        ) => Ok(Snap { base, value }),
        Ok(_) => Err(StoreError::Fault),
        Err(e) => Err(e),
    }
}

/// The front of a shard that was prepared.
pub(crate) fn front_of(
    shard: u8,
    answer: Result<WireAnswer, StoreError>,
) -> Result<Prepared, PrepareError>
    ensures { (based : List SpecBased) → front_answered result ≡ outcome_of (request.Prepare shard based) answer }
{
    match answer {
        Ok(answer) => match answer.given {
            Given::Front(front) => Ok(Prepared { shard, front }),
            Given::Late(base, horizon) => Err(PrepareError::Late(base, horizon)),
            Given::Clash(witness) => Err(PrepareError::Clash(witness)),
            _ => Err(PrepareError::Fault),
        },
        Err(StoreError::Fault) => Err(PrepareError::Fault),
        Err(StoreError::NoMemory) => Err(PrepareError::NoMemory),
    }
}

/// The number of a commit.
pub(crate) fn commit_of(answer: Result<WireAnswer, StoreError>) -> Result<u64, AppendError>
    ensures { (seq : ℕ) (body : List ℕ) (bases : List SpecBase) →
        commit_answered result ≡ outcome_of (request.Append seq body bases) answer }
{
    match answer {
        Ok(answer) => match answer.given {
            Given::Number(number) => Ok(number),
            Given::Clash(witness) => Err(AppendError::Clash(witness)),
            Given::Held(client, at) => Err(AppendError::Held(Barred { client, at })),
            Given::Full(limit) => Err(AppendError::Full(limit)),
            Given::Disk => Err(AppendError::Disk),
            _ => Err(AppendError::Fault),
        },
        Err(StoreError::Fault) => Err(AppendError::Fault),
        Err(StoreError::NoMemory) => Err(AppendError::NoMemory),
    }
}

/// A value at a number.
pub(crate) fn value_of(answer: Result<WireAnswer, StoreError>) -> Result<Value, ReadAtError>
    ensures { (address : SpecAddress) (number : ℕ) →
        value_answered result ≡ outcome_of (request.ReadAt address number) answer }
{
    match answer {
        Ok(answer) => match answer.given {
            Given::Value(value) => Ok(value),
            Given::Late(number, horizon) => Err(ReadAtError::Late(number, horizon)),
            _ => Err(ReadAtError::Fault),
        },
        Err(StoreError::Fault) => Err(ReadAtError::Fault),
        Err(StoreError::NoMemory) => Err(ReadAtError::NoMemory),
    }
}

/// What has changed.
pub(crate) fn feed_of(answer: Result<WireAnswer, StoreError>) -> Result<Feed, StoreError>
    ensures { feed_answered result ≡ outcome_of request.Take answer }
{
    match answer {
        Ok(
            WireAnswer {
                given: Given::Feed(feed),
                ..
            },
        ) => Ok(feed),
        Ok(_) => Err(StoreError::Fault),
        Err(e) => Err(e),
    }
}
