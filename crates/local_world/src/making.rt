//! The parts of a new world: nothing was done yet.

ghost use Rattle.std.specs.Prelude.{◌≡◌, [], replicate, IfOk};
ghost use Rattle.local_world.specs.Standing.{AreHeld, fronts_of};
ghost use Rattle.local_world.specs.Making.{IsEntered};

use change_feed::Tail;
use docc_prepare::CLIENTS;
use plain_data::Sequence;
use rdt_types::Settings;
use reactive_registry::Registry;
use std::alloc::{AllocError, Global};
use version_shard::Shard;

/// The shards of the settings, which have followed nothing.
pub(crate) fn empty_shards(alloc: Global, settings: &Settings) -> Result<Vec<Shard>, AllocError>
    ensures held { IfOk result (λ shards. AreHeld [] settings.now shards.items) }
    ensures fronts { IfOk result (λ shards. fronts_of shards.items ≡ replicate settings.now.shards 0) }
{
    let mut shards = Vec::new(alloc);
    let none = Tail::none(alloc, 0);
    for number in 0..settings.shards {
        shards.push(Shard::new(alloc, number, settings, &none)?)?;
    }
    Ok(shards)
}

/// No client has seen a commit.
pub(crate) fn nothing_seen(alloc: Global) -> Result<Sequence<u64>, AllocError>
    ensures { IfOk result (λ seens. seens ≡ replicate CLIENTS 0) }
{
    Ok(Sequence::from_vec(vec![in alloc; 0u64; CLIENTS as usize]?))
}

/// A registry in which every client is entered, at the beginning of the journal.
pub(crate) fn all_entered(alloc: Global) -> Result<Registry, AllocError>
    ensures { IfOk result (λ registry. IsEntered CLIENTS registry) }
{
    let mut registry = Registry::new(alloc, 0);
    for client in 0..CLIENTS {
        registry.enter(client)?;
    }
    Ok(registry)
}
