//! Each call of a view of a new world, but for a preparing and an append, with ample memory.

ghost use Rattle.std.specs.Prelude.{◌≡◌, IfOk};
ghost use Rattle.txn_lang.specs.Short.{IsShortAddress};

use docc_prepare::Backend;
use local_world::{View, World};
use plain_data::Text;
use rdt_types::{Address, Kind, Settings};
use std::alloc::{AllocError, Global};
use txn_lang::Snap;

fn counter(alloc: Global) -> Result<Address, AllocError>
    ensures { IfOk result (λ address. IsShortAddress address) }
{
    Ok(Address {
        kind: Kind::Counter,
        key: Text::from_slice(alloc, b"x")?,
    })
}

/// Whether a view of a new world is client 3's, and has seen nothing.
fn is_new(view: &mut View<'_>) -> bool {
    (view.client(), view.seen(), view.store_faults()) == (3, 0, 0)
        && matches!(view.refresh(), Ok(0))
}

/// Whether a counter is read, before any commit and as it was then.
fn reads(view: &mut View<'_>, address: &Address) -> bool
    requires { IsShortAddress address.now }
{
    matches!(view.read(address), Ok(Snap { base: 0, .. })) && view.read_at(address, 0).is_ok()
}

/// Whether a counter can be subscribed to and no more, and what is taken then goes up to no commit.
fn listens(view: &mut View<'_>, address: &Address) -> bool
    requires { IsShortAddress address.now }
{
    view.subscribe(address).is_ok() && view.unsubscribe(address).is_ok() && takes_nothing(view)
}

fn takes_nothing(view: &mut View<'_>) -> bool {
    match view.take() {
        Ok(feed) => feed.to() == 0,
        Err(_) => false,
    }
}

/// Whether each call of a view answers.
fn answers(world: &mut World, address: &Address) -> bool
    requires { IsShortAddress address.now }
{
    let mut view = world.view(3);
    is_new(&mut view) && reads(&mut view, address) && listens(&mut view, address)
}

fn stands_new(alloc: Global) -> bool {
    let Ok(address) = counter(alloc) else {
        return false;
    };
    match World::new(alloc, &Settings::standard()) {
        Ok(mut world) => answers(&mut world, &address),
        Err(_) => false,
    }
}

#[test]
fn nothing_stands_in_a_new_world(rt: HostRuntime) {
    assert!(rt; stands_new(rt.alloc()));
}

fn follows_nothing(alloc: Global) -> bool {
    match World::new(alloc, &Settings::standard()) {
        Ok(mut world) => world.shards() > 0 && matches!(world.follow(3, 0), Ok(0)),
        Err(_) => false,
    }
}

#[test]
fn a_shard_follows_an_empty_journal(rt: HostRuntime) {
    assert!(rt; follows_nothing(rt.alloc()));
}
