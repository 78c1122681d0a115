//! Calls of a store without commits.

ghost use Rattle.std.specs.Prelude.{◌≡◌, IfOk, None};
ghost use Rattle.txn_lang.specs.Short.{IsShortAddress};
ghost use Rattle.diamond_store.specs.Numbers.{from_in, HasSettings};

use diamond_store::{Book, Open, Served, Store, open};
use docc_prepare::Backend;
use history_lock::{Naming, Opened};
use journal_core::MemKeep;
use plain_data::Text;
use rdt_types::{Address, Kind, Settings};
use std::alloc::{AllocError, Global};
use std::marker::Brand;
use std::sync::Wait;
use txn_lang::{CommitList, Snap};

fn counter(alloc: Global) -> Result<Address, AllocError>
    ensures { IfOk result (λ address. IsShortAddress address) }
{
    Ok(Address {
        kind: Kind::Counter,
        key: Text::from_slice(alloc, b"x")?,
    })
}

/// Whether a client's pass is that of the first client of a new store, which has seen nothing, and finds nothing there.
fn is_new<N: Naming, R: Wait>(
    served: &mut Served<'_, MemKeep, Open, N, R>,
    address: &Address,
) -> bool
    requires { IsShortAddress address.now }
{
    (served.client(), served.seen(), served.store_faults()) == (0, 0, 0)
        && matches!(served.refresh(), Ok(0))
        && matches!(served.read(address), Ok(Snap { base: 0, .. }))
        && served.read_at(address, 0).is_ok()
}

/// Whether a feed is taken that goes up to no commit.
fn takes_nothing<N: Naming, R: Wait>(served: &mut Served<'_, MemKeep, Open, N, R>) -> bool {
    match served.take() {
        Ok(feed) => feed.to() == 0,
        Err(_) => false,
    }
}

/// Whether an address can be subscribed to and no more. The journal has the first feed. With the second the address is registered.
fn listens<N: Naming, R: Wait>(
    served: &mut Served<'_, MemKeep, Open, N, R>,
    address: &Address,
) -> bool
    requires { IsShortAddress address.now }
{
    served.subscribe(address).is_ok()
        && takes_nothing(served)
        && !is_told(served, address)
        && takes_nothing(served)
        && is_told(served, address)
        && served.unsubscribe(address).is_ok()
        && takes_nothing(served)
}

/// Whether the registry has changes at an address told to a client.
fn is_told<N: Naming, R: Wait>(
    served: &Served<'_, MemKeep, Open, N, R>,
    address: &Address,
) -> bool {
    served
        .store
        .is_told(served.rt, served.pass.client(), address)
}

/// Whether the registry has nothing of a client behind the end of its pass.
fn leaves<N: Naming, R: Wait>(served: Served<'_, MemKeep, Open, N, R>, address: &Address) -> bool {
    let Served { store, pass, rt } = served;
    let client = pass.client();
    let was_told = store.is_told(rt, client, address);
    store.leave(rt, pass);
    was_told && !store.is_told(rt, client, address)
}

fn new_store<N: Naming, R: Wait>(
    rt: &R,
    alloc: Global,
    settings: &Settings,
    opened: Opened<Book<MemKeep>>,
    address: &Address,
) -> bool
    requires lock { opened.lock ≡ N.lock }
    requires settings { HasSettings opened.lock.origin settings.now }
    requires from { from_in opened.lock.origin ≡ opened.lock.base }
    requires author { opened.front.author ≡ None }
    requires short { IsShortAddress address.now }
{
    let Ok((store, pass)) = Store::<MemKeep, Open, N>::new(alloc, settings, opened, Open) else {
        return false;
    };
    let mut served = Served {
        store: &store,
        pass,
        rt,
    };
    is_new(&mut served, address) && listens(&mut served, address) && leaves(served, address)
}

#[test]
fn nothing_stands_in_a_new_store(rt: HostRuntime) {
    let settings = Settings::standard();
    let opened = open(rt.alloc(), &settings, MemKeep, CommitList::new(rt.alloc()));
    match (opened, counter(rt.alloc())) {
        (Ok(opened), Ok(address)) => {
            assert!(rt; new_store::<Brand, _>(&rt, rt.alloc(), &settings, opened, &address));
        }
        _ => assert!(rt; false),
    }
}
