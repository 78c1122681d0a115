//! What a run observed: with the fronts at which the addresses were read, and in which order the shards are prepared.

ghost use Rattle.std.specs.Prelude.{◌≡◌, ◌≤◌, IfOk};
ghost use Rattle.rdt_types.specs.declared.limits.TheConstants.{LEAST_SHARDS, MOST_SHARDS};
ghost use Rattle.docc_prepare.specs.Attempts as spec;

use abort_witness::{Based, BasedList};
use journal_core::PreparedFront;
use plain_data::copied;
use rdt_types::shard_of;
use std::alloc::{AllocError, Global};
use txn_lang::{Seen, Snaps};

/// An observation with its base, the front at which its address was read.
#[inline(always)]
pub(crate) fn with_base(snaps: &Snaps, seen: &Seen) -> Result<Based, AllocError>
    ensures { IfOk result (λ based. based ≡ spec.with_base snaps.now seen.now) }
{
    Ok(Based {
        address: copied(&seen.address)?,
        obs: copied(&seen.obs)?,
        base: snaps.get(&seen.address).map_or(0, |snap| snap.base),
    })
}

/// Observations with the bases of their addresses, in their order.
pub(crate) fn based(
    alloc: Global,
    snaps: &Snaps,
    observations: &[Seen],
) -> Result<BasedList, AllocError>
    ensures { IfOk result (λ all. all ≡ spec.based snaps.now observations.now) }
{
    let mut all = BasedList::new(alloc);
    for seen in observations {
        all.push(with_base(snaps, seen)?)?;
    }
    Ok(all)
}

/// Whether a shard was prepared.
fn has_front(fronts: &[PreparedFront], shard: u8) -> bool
    ensures { result ≡ spec.has_front fronts.now shard }
{
    for prepared in fronts {
        if prepared.shard == shard {
            return true;
        }
    }
    false
}

/// The least shard that holds an observed address and has no front, if there is one.
#[tactic(auto, using(crate::proofs::Lowest::nothing_more))]
pub(crate) fn least_unprepared(
    shards: u8,
    fronts: &[PreparedFront],
    observations: &[Seen],
) -> Option<u8>
    requires { (LEAST_SHARDS ≤ shards) × (shards ≤ MOST_SHARDS) }
    ensures { result ≡ spec.least_unprepared shards fronts.now observations.now }
{
    let mut found = None;
    for seen in observations {
        let shard = shard_of(&seen.address, shards);
        if has_front(fronts, shard) {
            continue;
        }
        found = match found {
            None => Some(shard),
            Some(other) => Some(shard.min(other)),
        };
    }
    found
}
