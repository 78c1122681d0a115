//! What a service keeps of what its backend gave: values with their bases, and fronts.

ghost use Rattle.std.specs.Prelude.{◌≡◌, true, is_some, IfOk, OnErr};
ghost use Rattle.remote_service.specs.Keeping as spec;

use abort_witness::BasedList;
use plain_data::copied;
use rdt_types::{Address, Value};
use std::alloc::AllocError;

/// A value that was given, with its base.
#[derive(Drop)]
pub struct KeptSnap {
    pub address: Address,
    pub base: u64,
    pub value: Value,
}

/// A front that was given for these observations of a shard.
#[derive(Drop)]
pub struct KeptFront {
    pub shard: u8,
    pub based: BasedList,
    pub front: u64,
}

/// Whether a value is that of an address at a base.
fn is_at_base(address: &Address, base: u64, snap: &KeptSnap) -> bool
    ensures { result ≡ spec.is_at_base address.now base snap.now }
{
    address.cmp(&snap.address).is_eq() && snap.base == base
}

/// The value that was given of an address at a base.
pub(crate) fn value_kept(
    kept: &[KeptSnap],
    address: &Address,
    base: u64,
) -> Result<Option<Value>, AllocError>
    ensures found { IfOk result (λ found. found ≡ spec.value_kept kept.now address.now base) }

    // Memory is wanting only for a value that is there.
    ensures memory { OnErr result (is_some (spec.value_kept kept.now address.now base) ≡ true) }
{
    for snap in kept {
        if is_at_base(address, base, snap) {
            return Ok(Some(copied(&snap.value)?));
        }
    }
    Ok(None)
}

/// Whether a base of an address was given.
pub(crate) fn was_given(kept: &[KeptSnap], address: &Address, base: u64) -> bool
    ensures { result ≡ spec.was_given kept.now address.now base }
{
    for snap in kept {
        if is_at_base(address, base, snap) {
            return true;
        }
    }
    false
}

/// Whether a front was given for these observations of a shard.
fn is_front_of(shard: u8, observed: &BasedList, given: &KeptFront) -> bool
    ensures { result ≡ spec.is_front_of shard observed.now given.now }
{
    given.shard == shard && given.based == *observed
}

/// A front that was found, unless a later one is for these observations, too.
fn later_front(
    shard: u8,
    observed: &BasedList,
    given: &KeptFront,
    found: Option<u64>,
) -> Option<u64>
    ensures { result ≡ spec.later_front shard observed.now given.now found }
{
    if is_front_of(shard, observed, given) {
        Some(given.front)
    } else {
        found
    }
}

/// The front that was given last for just these observations of a shard, with just these bases.
pub(crate) fn front_kept(kept: &[KeptFront], shard: u8, observed: &BasedList) -> Option<u64>
    ensures { result ≡ spec.front_kept kept.now shard observed.now }
{
    let mut found = None;
    for given in kept {
        found = later_front(shard, observed, given, found);
    }
    found
}
