//! What is known of a client from what it was answered.

ghost use Rattle.std.specs.Prelude.{◌≡◌, true, false, if◌then◌else◌, [], OnOk, OnErr};
ghost use Rattle.std.specs.BTreeMap.{is_at};
ghost use Rattle.rdt_types.specs.declared.address.Address.{Address};
ghost use Rattle.rdt_types.specs.Addresses.{address_cmp};
ghost use Rattle.remote_link.specs.Table.{IsAnswer};
ghost use Rattle.remote_link.specs.Linking.{is_disk};
ghost use Rattle.remote_link.specs.Kept.{is_in, TakesIn, nothing_kept, one_fault_more, IsSubscription};

use dio_core::Count;
use plain_data::copied;
use rdt_types::{Address, LEAST_SHARDS};
use remote_wire::{Given, Request};
use std::alloc::{AllocError, Global};
use std::collections::BTreeSet;
use std::marker::Model;

/// What is known of a client from what it was answered.
#[derive(Drop)]
pub struct Standing {
    client: u32,
    shards: u8,
    seen: u64,
    taken: u64,
    denied: Count,
    faults: Count,
    subscribed: BTreeSet<Address>,
}

impl Model for Standing {
    ghost use Rattle.std.specs.Coded.{codes};
    ghost use Rattle.rdt_types.specs.contracts.address.Address as address;
    ghost use Rattle.remote_link.specs.Kept.{Kept};

    ghost Value = { Kept };

    ghost coded = { Prim.hlevel (codes, address.the_row.coded) };

    ghost view = { λ s. record { client = s.client; shards = s.shards; seen = s.seen; taken = s.taken; denied = s.denied; faults = s.faults; subscribed = s.subscribed.keys } };
}

/// An address is told.
fn tell(addresses: &mut BTreeSet<Address>, address: &Address) -> Result<(), AllocError>
    ensures ok { OnOk result ((a : Address) → is_in addresses.new.keys a ≡ (if is_at (address_cmp address.now) a then true else is_in addresses.old.keys a)) }
    ensures err { OnErr result (addresses.new.keys ≡ addresses.old.keys) }
{
    addresses.insert(copied(address)?)?;
    Ok(())
}

/// An address is told no longer.
fn hush(addresses: &mut BTreeSet<Address>, address: &Address)
    ensures { (a : Address) → is_in addresses.new.keys a ≡ (if is_at (address_cmp address.now) a then false else is_in addresses.old.keys a) }
{
    addresses.remove(address);
}

/// Whether the disk denied a commit.
fn is_denied(given: &Given) -> bool
    ensures { result ≡ is_disk given.now }
{
    matches!(given, Given::Disk)
}

impl Standing {
    /// Nobody has been greeted yet.
    pub fn new(alloc: Global) -> Standing
        ensures { result ≡ nothing_kept }
    {
        Standing {
            client: 0,
            shards: LEAST_SHARDS,
            seen: 0,
            taken: 0,
            denied: Count::new(),
            faults: Count::new(),
            subscribed: BTreeSet::new(alloc),
        }
    }

    /// How many calls have failed by a fault.
    pub fn faults(&self) -> u64
        ensures { result ≡ self.now.faults }
    {
        self.faults.get()
    }

    /// A call has failed by a fault.
    pub fn add_fault(&mut self)
        ensures { self.new ≡ one_fault_more self.old }
    {
        self.faults.add_one();
    }

    /// Keeps what was answered. An answer to a request gives nothing but what the request may be given.
    pub fn take_in(&mut self, request: &Request, seen: u64, given: &Given) -> Result<(), AllocError>
        requires fits { IsAnswer request.now seen given.now }
        ensures ok { OnOk result (TakesIn self.old request.now seen given.now self.new) }
        ensures err { OnErr result (self.new ≡ self.old) }

        // Memory is wanting for a subscription alone.
        ensures memory { OnErr result (IsSubscription request.now) }
    {
        match request {
            Request::ReadAt(_, _) => {}
            Request::Subscribe(address) => match given {
                Given::Done => tell(&mut self.subscribed, address)?,
                _ => unreachable!(),
            },
            Request::Unsubscribe(address) => match given {
                Given::Done => hush(&mut self.subscribed, address),
                _ => unreachable!(),
            },
            Request::Hello => match given {
                Given::Hello(client, shards) => {
                    self.client = *client;
                    self.shards = *shards;
                    self.seen = seen;
                }
                _ => unreachable!(),
            },
            Request::Take => match given {
                Given::Feed(_) => {
                    self.seen = seen;
                    self.taken = seen;
                }
                _ => unreachable!(),
            },
            Request::Append(_, _, _) => {
                self.seen = seen;
                if is_denied(given) {
                    self.denied.add_one();
                }
            }
            _ => self.seen = seen,
        }
        Ok(())
    }
}
