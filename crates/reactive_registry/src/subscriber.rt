//! What is kept of one subscriber.

ghost use Rattle.std.specs.Prelude.{◌≡◌, nat_le, filter, take, length, true, false, if◌then◌else◌, IfOk, OnOk, OnErr};
ghost use Rattle.std.specs.BTreeMap.{is_at};
ghost use Rattle.std.specs.BTreeSet.{contains};
ghost use Rattle.rdt_types.specs.declared.address.Address.{Address};
ghost use Rattle.rdt_types.specs.Addresses.{address_cmp};
ghost use Rattle.change_feed.specs.Pending.{pending};
ghost use Rattle.reactive_registry.specs.Registered.{is_address, pending_for, entered, emptied, with_address, unsubscribed, changes_elsewhere, addresses_with};
ghost use Rattle.reactive_registry.specs.Registered.{Brings, Gains, SettlesAddress};
ghost use Rattle.reactive_registry.specs.code.Telling.{pushed, cut};

use change_feed::{Change, ChangeList, Feed};
use plain_data::copied;
use rdt_types::Address;
use std::alloc::{AllocError, Global};
use std::collections::BTreeSet;
use std::marker::Model;

/// A subscriber's addresses, and the changes there that it hasn't taken yet.
#[derive(Drop)]
pub(crate) struct Subscriber {
    taken: u64,
    addresses: BTreeSet<Address>,
    changes: Vec<Change>,
}

impl Model for Subscriber {
    ghost use Rattle.rdt_types.specs.contracts.address.Address as address;
    ghost use Rattle.change_feed.specs.contracts.change.Change as change;
    ghost use Rattle.reactive_registry.specs.Registered.{Kept, kept_code};

    ghost Value = { Kept };

    ghost coded = { kept_code address.the_row.coded change.the_row.coded };

    ghost view = { λ s. record { taken = s.taken; addresses = s.addresses.keys; changes = s.changes.items } };
}

/// Adds copies of the changes at an address. For want of memory some of them may be there.
fn push_at(
    changes: &mut Vec<Change>,
    address: &Address,
    missed: &[Change],
) -> Result<(), AllocError>
    ensures ok { OnOk result (Gains address.now missed.now changes.old.items changes.new.items) }
    ensures begun { take (length changes.old.items) changes.new.items ≡ changes.old.items }
{
    for change in missed {
        if address.cmp(&change.address).is_eq() {
            changes.push(copied(change)?)?;
        }
    }
    Ok(())
}

/// The same of a list of changes.
fn push_missed(
    changes: &mut Vec<Change>,
    address: &Address,
    missed: &ChangeList,
) -> Result<(), AllocError>
    ensures ok { OnOk result (Gains address.now missed.now changes.old.items changes.new.items) }
    ensures begun { take (length changes.old.items) changes.new.items ≡ changes.old.items }
{
    let mut rest = missed.lend();
    while let Some(piece) = rest.next_piece() {
        push_at(changes, address, piece)?;
    }
    Ok(())
}

/// Takes the changes at an address out.
fn drop_at(changes: &mut Vec<Change>, address: &Address)
    ensures { changes.new.items ≡ changes_elsewhere address.now changes.old.items }
{
    changes.retain(|change| !address.cmp(&change.address).is_eq());
}

/// Takes the changes past a number out.
fn drop_past(changes: &mut Vec<Change>, front: u64)
    ensures { changes.new.items ≡ filter (λ change. nat_le change.number front) changes.old.items }
{
    changes.retain(|change| change.number <= front);
}

/// A feed up to a number of changes.
fn feed_of(alloc: Global, to: u64, changes: &[Change]) -> Result<Feed, AllocError>
    ensures to { IfOk result (λ feed. feed.to ≡ to) }
    ensures pending { IfOk result (λ feed. Brings feed (λ a. pending a changes.now)) }
{
    let mut feed = Feed::new(alloc, to);
    for change in changes {
        feed.add(&change.address, &change.delta)?;
    }
    Ok(feed)
}

impl Subscriber {
    /// No address, at a number. It is never refused for want of memory.
    pub fn new(alloc: Global, front: u64) -> Subscriber
        ensures { result ≡ entered front }
    {
        Subscriber {
            taken: front,
            addresses: BTreeSet::new(alloc),
            changes: Vec::new(alloc),
        }
    }

    /// The number up to which it has taken.
    pub fn taken(&self) -> u64
        ensures { result ≡ self.now.taken }
    {
        self.taken
    }

    /// Whether an address is its.
    pub fn has(&self, address: &Address) -> bool
        ensures { result ≡ is_address self.now address.now }
    {
        self.addresses.contains(address)
    }

    /// Its addresses.
    pub fn addresses(&self) -> &BTreeSet<Address>
        ensures { result.now.keys ≡ self.now.addresses }
    {
        &self.addresses
    }

    /// Keeps a change.
    pub fn push(&mut self, change: &Change) -> Result<(), AllocError>
        ensures ok { OnOk result (self.new ≡ pushed change.now self.old) }
        ensures err { OnErr result (self.new ≡ self.old) }
    {
        self.changes.push(copied(change)?)?;
        Ok(())
    }

    /// Forgets the changes past a number. It is never refused for want of memory.
    pub fn cut(&mut self, front: u64)
        ensures { self.new ≡ cut front self.old }
    {
        drop_past(&mut self.changes, front);
    }

    /// Adds an address, and the changes there that were missed.
    pub fn subscribe(&mut self, address: &Address, missed: &ChangeList) -> Result<(), AllocError>
        ensures has { OnOk result (SettlesAddress address.now true self.old self.new) }
        ensures ok { OnOk result (self.new ≡ with_address address.now missed.now self.old) }
        ensures err { OnErr result (self.new ≡ self.old) }
    {
        let count = self.changes.len();
        let added = add_address(&mut self.addresses, &mut self.changes, address, missed);
        if added.is_err() {
            self.changes.truncate(count);
        }
        added
    }

    /// Takes an address out, and what was kept of it. It is never refused for want of memory.
    pub fn unsubscribe(&mut self, address: &Address)
        ensures has { SettlesAddress address.now false self.old self.new }
        ensures kept { self.new ≡ unsubscribed address.now self.old }
    {
        self.addresses.remove(address);
        drop_at(&mut self.changes, address);
    }

    /// A feed up to a number of what it hasn't taken.
    pub fn feed(&self, alloc: Global, to: u64) -> Result<Feed, AllocError>
        ensures to { IfOk result (λ feed. feed.to ≡ to) }
        ensures pending { IfOk result (λ feed. Brings feed (pending_for self.now)) }
    {
        feed_of(alloc, to, self.changes.as_slice())
    }

    /// Has taken all up to a number.
    pub fn empty(&mut self, front: u64)
        ensures { self.new ≡ emptied front self.old }
    {
        self.changes.clear();
        self.taken = front;
    }
}

/// Adds the changes at an address, and then the address. For want of memory the addresses are as before.
fn add_address(
    addresses: &mut BTreeSet<Address>,
    changes: &mut Vec<Change>,
    address: &Address,
    missed: &ChangeList,
) -> Result<(), AllocError>
    ensures has { OnOk result ((a : Address) → contains address_cmp addresses.new a
        ≡ (if is_at (address_cmp address.now) a then true else contains address_cmp addresses.old a)) }
    ensures added { OnOk result (addresses.new.keys ≡ addresses_with address.now addresses.old.keys) }
    ensures grown { OnOk result (Gains address.now missed.now changes.old.items changes.new.items) }
    ensures err { OnErr result (addresses.new.keys ≡ addresses.old.keys) }
    ensures begun { take (length changes.old.items) changes.new.items ≡ changes.old.items }
{
    push_missed(changes, address, missed)?;
    addresses.insert(copied(address)?)?;
    Ok(())
}
