//! Deltas at several addresses.

ghost use Rattle.std.specs.Prelude.{◌≡◌, OnOk, OnErr};
ghost use Rattle.rdt_types.specs.DeltaMaps.{with_delta};

use crate::address::Address;
use crate::delta::{Delta, compose};
use plain_data::OrderedMap;
use std::alloc::{AllocError, Global};

/// A delta for each of some addresses, by rising address.
pub type DeltaMap = OrderedMap<Address, Delta>;

/// Adds a delta at an address, after what stands there.
pub fn add_delta(
    alloc: Global,
    deltas: &mut DeltaMap,
    address: Address,
    delta: Delta,
) -> Result<(), AllocError>
    ensures ok { OnOk result (deltas.new ≡ with_delta deltas.old address delta) }
    ensures err { OnErr result (deltas.new ≡ deltas.old) }
{
    let whole = match deltas.get(&address) {
        Some(before) => compose(alloc, before, &delta)?,
        None => delta,
    };
    deltas.insert(address, whole)
}
