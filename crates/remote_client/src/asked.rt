//! The requests that spell calls, and how much is seen behind their answers.

ghost use Rattle.std.specs.Prelude.{◌≡◌, IfOk};
ghost use Rattle.docc_prepare.specs.Calls.{Call};
ghost use Rattle.remote_calls.specs.Spelled as spec;
ghost use Rattle.remote_calls.specs.Spelled.{request_for};

use abort_witness::{Based, BasedList};
use journal_core::Ready;
use plain_data::copied;
use rdt_types::Address;
use remote_wire::{Base, BaseList, Request};
use std::alloc::{AllocError, Global};

/// The request of a read.
pub(crate) fn read_request(address: &Address) -> Result<Request, AllocError>
    ensures { IfOk result (λ asked. asked ≡ request_for (Call.read address.now)) }
{
    Ok(Request::Read(copied(address)?))
}

/// The request of a preparing.
pub(crate) fn prepare_request(shard: u8, based: &BasedList) -> Result<Request, AllocError>
    ensures { IfOk result (λ asked. asked ≡ request_for (Call.prepare shard based.now)) }
{
    Ok(Request::Prepare(shard, copied(based)?))
}

/// The request of an append.
pub(crate) fn append_request(alloc: Global, ready: &Ready) -> Result<Request, AllocError>
    ensures { IfOk result (λ asked. asked ≡ request_for (Call.append ready.now)) }
{
    let body = copied(&ready.body)?;
    let bases = bases_of(alloc, ready.based.as_slice())?;
    Ok(Request::Append(ready.seq, body, bases))
}

/// The request of a read at a number.
pub(crate) fn read_at_request(address: &Address, number: u64) -> Result<Request, AllocError>
    ensures { IfOk result (λ asked. asked ≡ request_for (Call.read_at address.now number)) }
{
    Ok(Request::ReadAt(copied(address)?, number))
}

/// The request of a subscription.
pub(crate) fn subscribe_request(address: &Address) -> Result<Request, AllocError>
    ensures { IfOk result (λ asked. asked ≡ request_for (Call.subscribe address.now)) }
{
    Ok(Request::Subscribe(copied(address)?))
}

/// The request of the end of a subscription.
pub(crate) fn unsubscribe_request(address: &Address) -> Result<Request, AllocError>
    ensures { IfOk result (λ asked. asked ≡ request_for (Call.unsubscribe address.now)) }
{
    Ok(Request::Unsubscribe(copied(address)?))
}

/// The base of each observed address, once, in the order in which they were observed.
fn bases_of(alloc: Global, based: &[Based]) -> Result<BaseList, AllocError>
    ensures { IfOk result (λ named. named ≡ spec.bases_of based.now) }
{
    let mut named = BaseList::new(alloc);
    for observed in based {
        if !is_among(named.as_slice(), &observed.address) {
            let address = copied(&observed.address)?;
            let base = observed.base;
            named.push(Base { address, base })?;
        }
    }
    Ok(named)
}

/// Whether an address is among those that are named.
fn is_among(named: &[Base], address: &Address) -> bool
    ensures { result ≡ spec.is_among named.now address.now }
{
    for base in named {
        if address.cmp(&base.address).is_eq() {
            return true;
        }
    }
    false
}

/// How many commits a client has seen behind the answer to a request.
pub(crate) fn seen_behind(request: &Request, old: u64, seen: u64) -> u64
    ensures { result ≡ spec.seen_behind request.now old seen }
{
    match request {
        Request::ReadAt(_, _) | Request::Subscribe(_) | Request::Unsubscribe(_) => old,
        _ => seen,
    }
}
