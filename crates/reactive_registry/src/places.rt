//! The subscribers of each address.

ghost use Rattle.std.specs.Prelude.{◌≡◌, ℕ, true, false, Some, IfOk, OnOk, OnErr, is_some, length, ◌==◌};
ghost use Rattle.edge_slab.specs.Edges.{subscribers_at};
ghost use Rattle.std.specs.Option.{option_copied};
ghost use Rattle.slab.specs.Slab.{get};
ghost use Rattle.rdt_types.specs.declared.address.Address.{Address};
ghost use Rattle.rdt_types.specs.Addresses.{address_cmp};
ghost use Rattle.reactive_registry.specs.Placed.{number_in};
ghost use Rattle.reactive_registry.specs.Maps.{IsPut};
ghost use Rattle.reactive_registry.specs.Numbers.{SettlesNumber};
ghost use Rattle.reactive_registry.specs.Places.{links, without_links, SettlesLink, KeepsLinks};

use edge_slab::EdgeSlab;
use plain_data::copied;
use rdt_types::Address;
use slab::Slab;
use std::alloc::{AllocError, Global};
use std::collections::{BTreeMap, BTreeSet};
use std::marker::Model;

/// The number of each address that has a subscriber, and the edges from subscribers to these numbers. A number is given
/// back, and may be given to another address, once nobody is linked to it.
#[derive(Drop)]
pub(crate) struct Places {
    numbers: BTreeMap<Address, u32>,
    given: Slab<()>,
    edges: EdgeSlab,
}

impl Model for Places {
    ghost use Rattle.rdt_types.specs.contracts.address.Address as address;
    ghost use Rattle.reactive_registry.specs.Placed.{Placed, placed_code};

    ghost Value = { Placed };

    ghost coded = { placed_code address.the_row.coded };

    ghost use Rattle.reactive_registry.specs.Numbers.{AreNumbers};

    ghost view = { λ p. record { numbers = p.numbers.entries; edges = p.edges } };

    ghost invariant = { λ p. AreNumbers p.numbers.entries p.given p.edges };
}

/// Gives a number out that isn't given.
fn give(given: &mut Slab<()>) -> Result<u32, AllocError>
    ensures fresh { IfOk result (λ n. is_some (get given.old n) ≡ false) }
    ensures ok { IfOk result (λ n. SettlesNumber n true given.old given.new) }
    ensures err { OnErr result ((k : ℕ) → is_some (get given.new k) ≡ is_some (get given.old k)) }
{
    let key = given.insert(())?;
    match u32::try_from(key) {
        Ok(number) => Ok(number),
        Err(_) => {
            given.try_remove(key);
            Err(AllocError)
        }
    }
}

/// Takes a number back.
fn take_back(given: &mut Slab<()>, number: u32)
    ensures { SettlesNumber number false given.old given.new }
{
    given.try_remove(number as usize);
}

/// Gives an address a number.
fn put(
    numbers: &mut BTreeMap<Address, u32>,
    address: &Address,
    number: u32,
) -> Result<(), AllocError>
    ensures ok { OnOk result (IsPut address_cmp address.now number numbers.old numbers.new) }
    ensures err { OnErr result (numbers.new.entries ≡ numbers.old.entries) }
{
    let key = copied(address)?;
    numbers.insert(key, number)?;
    Ok(())
}

/// Gives an address, which has none, a number that isn't given. For want of memory none is given.
fn new_number(
    numbers: &mut BTreeMap<Address, u32>,
    given: &mut Slab<()>,
    address: &Address,
) -> Result<u32, AllocError>
    ensures fresh { IfOk result (λ n. is_some (get given.old n) ≡ false) }
    ensures numbers { IfOk result (λ n. IsPut address_cmp address.now n numbers.old numbers.new) }
    ensures given { IfOk result (λ n. SettlesNumber n true given.old given.new) }
    ensures as_numbered { OnErr result (numbers.new.entries ≡ numbers.old.entries) }
    ensures as_given { OnErr result ((k : ℕ) → is_some (get given.new k) ≡ is_some (get given.old k)) }
{
    let number = give(given)?;
    let put = put(numbers, address, number);
    if put.is_err() {
        take_back(given, number);
    }
    put?;
    Ok(number)
}

/// Whether nobody is linked to a number.
fn is_free(edges: &EdgeSlab, number: u32) -> bool
    ensures { result ≡ (length (subscribers_at edges.now number) == 0) }
{
    match edges.walk_address(number).next() {
        None => true,
        Some(_) => false,
    }
}

impl Places {
    /// No address has a subscriber. It is never refused for want of memory.
    pub fn new(alloc: Global) -> Places
        ensures { (address : Address) (subscriber : ℕ) → links result address subscriber ≡ false }
    {
        Places {
            numbers: BTreeMap::new(alloc),
            given: Slab::new(alloc),
            edges: EdgeSlab::new(alloc),
        }
    }

    /// The number of an address.
    pub fn number(&self, address: &Address) -> Option<u32>
        ensures { result ≡ number_in self.now.numbers address.now }
    {
        self.numbers.get(address).copied()
    }

    /// The edges from subscribers to numbers.
    pub fn edges(&self) -> &EdgeSlab
        ensures { result.now ≡ self.now.edges }
    {
        &self.edges
    }

    /// The number of an address, which gets one if it has none. Nobody stands elsewhere than before.
    fn number_for(&mut self, address: &Address) -> Result<u32, AllocError>
        ensures number { IfOk result (λ n. number_in self.new.numbers address.now ≡ Some n) }
        ensures same { KeepsLinks self.old self.new }
    {
        match self.number(address) {
            Some(number) => Ok(number),
            None => new_number(&mut self.numbers, &mut self.given, address),
        }
    }

    /// Puts a subscriber at an address.
    pub fn link(&mut self, address: &Address, subscriber: u32) -> Result<(), AllocError>
        ensures ok { OnOk result (SettlesLink address.now subscriber true self.old self.new) }
        ensures err { OnErr result (KeepsLinks self.old self.new) }
    {
        let number = self.number_for(address)?;
        match self.edges.link(subscriber, number) {
            Ok(_) => Ok(()),
            Err(error) => {
                self.give_back(address);
                Err(error)
            }
        }
    }

    /// Takes a subscriber from an address. It is never refused for want of memory.
    pub fn unlink(&mut self, address: &Address, subscriber: u32)
        ensures { SettlesLink address.now subscriber false self.old self.new }
    {
        if let Some(number) = self.number(address) {
            self.edges.unlink(subscriber, number);
            self.give_back(address);
        }
    }

    /// Takes a subscriber from all addresses, of which these are those where it stands. It is never refused for want of
    /// memory.
    pub fn drop_subscriber(&mut self, addresses: &BTreeSet<Address>, subscriber: u32)
        ensures { (a : Address) (s : ℕ) → links self.new a s ≡ without_links self.old subscriber a s }
    {
        self.edges.drop_subscriber(subscriber);
        for address in addresses {
            self.give_back(address);
        }
    }

    /// Gives an address's number back, if nobody is linked to it.
    fn give_back(&mut self, address: &Address)
        ensures { KeepsLinks self.old self.new }
    {
        let Some(number) = self.number(address) else {
            return;
        };
        if is_free(&self.edges, number) {
            self.numbers.remove(address);
            take_back(&mut self.given, number);
        }
    }
}
