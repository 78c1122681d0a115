//! Values as of one number.

ghost use Rattle.std.specs.Prelude.{◌≡◌, ◌≤◌, OnOk, OnErr, IfOk};
ghost use Rattle.std.specs.Option.{option_copied};
ghost use Rattle.std.specs.BTreeMap.{IsOrdered};
ghost use Rattle.rdt_types.specs.Addresses.{address_cmp};
ghost use Rattle.client_cache.specs.Cached as spec;
ghost use Rattle.client_cache.specs.code.Changing.{changed_from, with_all};

use change_feed::Feed;
use rdt_types::{Address, Delta, Value, apply};
use std::alloc::{AllocError, Global};
use std::collections::BTreeMap;
use std::marker::Model;

/// The values of some addresses, all as of one number of the journal.
#[derive(Drop)]
pub struct Cache {
    alloc: Global,
    at: u64,
    values: BTreeMap<Address, Value>,
}

impl Model for Cache {
    ghost use Rattle.rdt_types.specs.contracts.address.Address as address;
    ghost use Rattle.rdt_types.specs.contracts.value.Value as value;
    ghost use Rattle.client_cache.specs.Cached.{Cached, cached_code};

    ghost Value = { Cached };

    ghost coded = { cached_code address.the_row.coded value.the_row.coded };

    ghost view = { λ c. record { at = c.at; values = c.values.entries } };
}

/// What a feed's deltas make of the values that are held at their addresses.
fn changed_values(
    alloc: Global,
    values: &BTreeMap<Address, Value>,
    changes: &[(Address, Delta)],
) -> Result<Vec<(Address, Value)>, AllocError>
    ensures changed { IfOk result (λ list. list.items ≡ changed_from values.now.entries changes.now) }
    ensures ordered { IsOrdered address_cmp values.now }
{
    let most = values.len().min(changes.len());
    let mut changed = Vec::with_capacity(alloc, most)?;
    for (address, delta) in changes {
        if let Some(value) = values.get(address) {
            let value = apply(alloc, delta, value)?;
            changed.push((address.clone()?, value))?;
        }
    }
    Ok(changed)
}

/// Puts values in the places of those that are held at their addresses.
#[tactic(auto, using(crate::proofs::Changing::nothing_put))]
fn put_all(values: &mut BTreeMap<Address, Value>, changed: Vec<(Address, Value)>)
    ensures { values.new.entries ≡ with_all values.old.entries changed.items }
{
    for (address, value) in changed {
        if let Some(place) = values.get_mut(&address) {
            *place = value;
        }
    }
}

impl Cache {
    /// A cache that holds nothing, at a number. It is never refused for want of memory.
    pub fn new(alloc: Global, at: u64) -> Cache
        ensures { result ≡ spec.empty at }
    {
        Cache {
            alloc,
            at,
            values: BTreeMap::new(alloc),
        }
    }

    /// The number that its values are as of.
    pub fn at(&self) -> u64
        ensures { result ≡ self.now.at }
    {
        self.at
    }

    /// The value at an address; nothing exactly where none is held.
    pub fn get(&self, address: &Address) -> Option<&Value>
        ensures { option_copied result ≡ spec.held self.now address.now }
    {
        self.values.get(address)
    }

    /// Holds a value at an address, in the place of the one that was there.
    pub fn fill(&mut self, address: Address, value: Value) -> Result<(), AllocError>
        ensures ok { OnOk result (self.new ≡ spec.filled self.old address value) }
        ensures err { OnErr result (self.new ≡ self.old) }
    {
        self.values.insert(address, value)?;
        Ok(())
    }

    /// Applies a feed's deltas to the held values, and goes as far as the feed. All new values are made before any is
    /// put in its place; the feed's addresses are looked up, and no other value is touched.
    pub fn advance(&mut self, feed: &Feed) -> Result<(), AllocError>
        requires { self.old.at ≤ feed.now.to }
        ensures ok { OnOk result (self.new ≡ spec.advanced self.old feed.now) }
        ensures each { OnOk result (spec.Advances self.old self.new feed.now) }
        ensures err { OnErr result (self.new ≡ self.old) }
    {
        let changed = changed_values(self.alloc, &self.values, feed.changes().as_slice())?;
        put_all(&mut self.values, changed);
        self.at = feed.to();
        Ok(())
    }

    /// Holds no value at an address any longer. It is never refused for want of memory.
    pub fn release(&mut self, address: &Address)
        ensures { self.new ≡ spec.released self.old address.now }
    {
        let _value = self.values.remove(address);
    }
}
