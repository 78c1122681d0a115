//! A map's calls, with what they leave at each key.

ghost use Rattle.std.specs.Prelude.{◌≡◌, OnOk, OnErr};
ghost use Rattle.reactive_registry.specs.Maps.{IsPut};

use std::alloc::AllocError;
use std::collections::BTreeMap;

/// Puts a value at a key. For want of memory the pair is dropped.
pub(crate) fn put<K: Ord + Drop, V: Drop>(
    map: &mut BTreeMap<K, V>,
    key: K,
    value: V,
) -> Result<(), AllocError>
    ensures ok { OnOk result (IsPut K.cmp key value map.old map.new) }
    ensures err { OnErr result (map.new.entries ≡ map.old.entries) }
{
    map.insert(key, value)?;
    Ok(())
}
