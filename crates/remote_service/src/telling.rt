//! What is told of what the backend answers.

ghost use Rattle.std.specs.Prelude.{◌≡◌};
ghost use Rattle.remote_service.specs.code.Told as spec;

use crate::error::ServiceError;
use crate::forms::are_filed;
use change_feed::Feed;
use docc_prepare::{AppendError, PrepareError, ReadAtError, StoreError};
use rdt_types::Value;
use remote_wire::{Given, WireAnswer};

/// An error of a store.
pub(crate) fn of_store(e: StoreError) -> ServiceError
    ensures { result ≡ spec.of_store e }
{
    match e {
        StoreError::Fault => ServiceError::StoreFault,
        StoreError::NoMemory => ServiceError::NoMemory,
    }
}

/// An answer.
pub(crate) fn answer(seen: u64, given: Given) -> Result<WireAnswer, ServiceError>
    ensures { result ≡ spec.answer seen given }
{
    Ok(WireAnswer { seen, given })
}

/// What is told of a refresh.
pub(crate) fn refreshed(outcome: Result<u64, StoreError>) -> Result<WireAnswer, ServiceError>
    ensures { result ≡ spec.refreshed outcome }
{
    match outcome {
        Ok(seen) => answer(seen, Given::Done),
        Err(e) => Err(of_store(e)),
    }
}

/// What is told of a call that gives nothing.
pub(crate) fn done(seen: u64, outcome: Result<(), StoreError>) -> Result<WireAnswer, ServiceError>
    ensures { result ≡ spec.done seen outcome }
{
    match outcome {
        Ok(()) => answer(seen, Given::Done),
        Err(e) => Err(of_store(e)),
    }
}

/// What is told of a read at a number.
pub(crate) fn valued(
    seen: u64,
    outcome: Result<Value, ReadAtError>,
) -> Result<WireAnswer, ServiceError>
    ensures { result ≡ spec.valued seen outcome }
{
    match outcome {
        Ok(value) => answer(seen, Given::Value(value)),
        Err(ReadAtError::Late(number, horizon)) => answer(seen, Given::Late(number, horizon)),
        Err(ReadAtError::Fault) => Err(ServiceError::StoreFault),
        Err(ReadAtError::NoMemory) => Err(ServiceError::NoMemory),
    }
}

/// What is told of changes.
pub(crate) fn fed(seen: u64, outcome: Result<Feed, StoreError>) -> Result<WireAnswer, ServiceError>
    ensures { spec.Feeds seen outcome result }
{
    match outcome {
        Ok(feed) => {
            if are_filed(feed.changes().as_slice()) {
                answer(seen, Given::Feed(feed))
            } else {
                Err(ServiceError::NoMemory)
            }
        }
        Err(e) => Err(of_store(e)),
    }
}

/// What is told where no front was given.
pub(crate) fn unprepared(seen: u64, e: PrepareError) -> Result<WireAnswer, ServiceError>
    ensures { result ≡ spec.unprepared seen e }
{
    match e {
        PrepareError::Late(base, horizon) => answer(seen, Given::Late(base, horizon)),
        PrepareError::Clash(witness) => answer(seen, Given::Clash(witness)),
        PrepareError::Fault => Err(ServiceError::StoreFault),
        PrepareError::NoMemory => Err(ServiceError::NoMemory),
    }
}

/// What is told of an append.
pub(crate) fn settled(
    seen: u64,
    outcome: Result<u64, AppendError>,
) -> Result<WireAnswer, ServiceError>
    ensures { result ≡ spec.settled seen outcome }
{
    match outcome {
        Ok(number) => answer(seen, Given::Number(number)),
        Err(AppendError::Clash(witness)) => answer(seen, Given::Clash(witness)),
        Err(AppendError::Held(barred)) => answer(seen, Given::Held(barred.client, barred.at)),
        Err(AppendError::Full(limit)) => answer(seen, Given::Full(limit)),
        Err(AppendError::Disk) => answer(seen, Given::Disk),
        Err(AppendError::Fault) => Err(ServiceError::StoreFault),
        Err(AppendError::NoMemory) => Err(ServiceError::NoMemory),
    }
}
