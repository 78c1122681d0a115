//! What may be asked: texts that aren't too long, and observations that may be validated.

ghost use Rattle.std.specs.Prelude.{◌≡◌, ◌≤◌, length};
ghost use Rattle.rdt_types.specs.declared.limits.TheConstants.{LEAST_SHARDS, MOST_SHARDS};
ghost use Rattle.txn_lang.specs.Short.{text_in};
ghost use Rattle.remote_service.specs.Malformed as spec;

use crate::kept::{KeptSnap, was_given};
use abort_witness::Based;
use conflict_table::Obs;
use rdt_types::{Address, shard_of};
use txn_lang::TEXT_LIMIT;

/// Whether a key has at most 1,024 bytes.
pub(crate) fn is_short(address: &Address) -> bool
    ensures { result ≡ spec.is_short address.now }
{
    address.key.len() <= TEXT_LIMIT
}

/// How long the text is that an observation is of.
fn text_len(obs: &Obs) -> usize
    ensures { result ≡ length (text_in obs.now) }
{
    match obs {
        Obs::SetHas(element) => element.len(),
        Obs::HashAt(field) => field.len(),
        _ => 0,
    }
}

/// Whether the key and the text of an observation have at most 1,024 bytes each.
fn are_short(observed: &Based) -> bool
    ensures { result ≡ spec.are_short observed.now }
{
    is_short(&observed.address) && text_len(&observed.obs) <= TEXT_LIMIT
}

/// Whether an observation is of its address' kind.
fn is_of_its_kind(observed: &Based) -> bool
    ensures { result ≡ spec.is_of_its_kind observed.now }
{
    observed.obs.kind() == observed.address.kind
}

/// Whether an observation may be validated in a shard.
fn is_valid(kept: &[KeptSnap], shards: u8, shard: u8, observed: &Based) -> bool
    requires { (LEAST_SHARDS ≤ shards) × (shards ≤ MOST_SHARDS) }
    ensures { result ≡ spec.is_valid kept.now shards shard observed.now }
{
    shard_of(&observed.address, shards) == shard
        && is_of_its_kind(observed)
        && are_short(observed)
        && was_given(kept, &observed.address, observed.base)
}

/// Whether each may.
fn are_valid(kept: &[KeptSnap], shards: u8, shard: u8, based: &[Based]) -> bool
    requires { (LEAST_SHARDS ≤ shards) × (shards ≤ MOST_SHARDS) }
    ensures { result ≡ spec.are_valid kept.now shards shard based.now }
{
    for observed in based {
        if !is_valid(kept, shards, shard, observed) {
            return false;
        }
    }
    true
}

/// Whether there are so few that four bytes tell how many.
fn are_few(based: &[Based]) -> bool
    ensures { result ≡ spec.are_few based.now }
{
    based.len() < 4_294_967_296
}

/// Whether a shard may be prepared with these observations.
pub(crate) fn can_prepare(kept: &[KeptSnap], shards: u8, shard: u8, based: &[Based]) -> bool
    requires { (LEAST_SHARDS ≤ shards) × (shards ≤ MOST_SHARDS) }
    ensures { result ≡ spec.can_prepare kept.now shards shard based.now }
{
    shard < shards && are_few(based) && are_valid(kept, shards, shard, based)
}
