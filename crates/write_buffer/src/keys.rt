//! The keys of sets and hashes, over which a delta may lie. Of a hash they copy its fields, and none of its texts.

ghost use Rattle.std.specs.Prelude.{◌≡◌, Option, IfOk, is_some};
ghost use Rattle.std.specs.FinMap as fin;
ghost use Rattle.rdt_types.specs.Keyed as keyed;
ghost use Rattle.write_buffer.specs.code.Keeping as code;

use plain_data::{Marking, Text, TextMap, TextSet};
use rdt_types::{KeyedDelta, Leaves, TextList};
use std::alloc::{AllocError, Global};

/// Marks that are laid over keys alone: each keeps its key or takes it away.
#[derive(Drop)]
struct Keeping;

impl<M: Leaves> Marking<M, ()> for Keeping {
    ghost left = { λ keeping mark. code.keeping M.left mark };

    fn left(&self, mark: &M) -> Result<Option<()>, AllocError> {
        Ok(if mark.leaves() { Some(()) } else { None })
    }
}

/// Copies of a map's keys, in order.
pub(crate) fn keys_of<V>(alloc: Global, map: &TextMap<V>) -> Result<TextList, AllocError>
    ensures { IfOk result (λ keys. keys ≡ fin.keys map.now) }
{
    let mut keys = TextList::new(alloc);
    for entry in map.as_slice() {
        keys.push(entry.0.clone()?)?;
    }
    Ok(keys)
}

/// Copies of a map's keys, as a set.
pub(crate) fn key_set<V>(alloc: Global, map: &TextMap<V>) -> Result<TextSet, AllocError>
    ensures { IfOk result (λ set. fin.keys set ≡ fin.keys map.now) }
{
    let mut keys = Vec::new(alloc);
    for entry in map.as_slice() {
        keys.push((entry.0.clone()?, ()))?;
    }
    Ok(TextSet::from_vec(keys))
}

/// The texts of a set, in order, in their own memory.
fn into_keys(alloc: Global, set: TextSet) -> Result<TextList, AllocError>
    ensures { IfOk result (λ keys. keys ≡ fin.keys set) }
{
    let mut keys = TextList::new(alloc);
    for (key, _) in set.into_vec() {
        keys.push(key)?;
    }
    Ok(keys)
}

/// The keys of a set or a hash after a delta, from those before it.
pub(crate) fn keys_over<M: Leaves>(
    alloc: Global,
    d: &KeyedDelta<M>,
    keys: &TextSet,
) -> Result<TextList, AllocError>
    ensures { IfOk result (λ xs. xs ≡ fin.keys (keyed.applied (code.keeping M.left) d.now keys.now)) }
{
    if d.cleared() {
        let none = TextSet::new(alloc);
        return into_keys(alloc, none.overlaid(alloc, &Keeping, d.marks())?);
    }
    into_keys(alloc, keys.overlaid(alloc, &Keeping, d.marks())?)
}
