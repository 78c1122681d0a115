//! Which watches stand at an address.

ghost use Rattle.std.specs.Bool.{OnTrue};
ghost use Rattle.std.specs.Prelude.{◌≡◌, [], true, false, if◌then◌else◌};
ghost use Rattle.std.specs.BTreeMap.{is_at};
ghost use Rattle.rdt_types.specs.declared.address.Address.{Address};
ghost use Rattle.rdt_types.specs.Addresses.{address_cmp};
ghost use Rattle.rerun_driver.specs.code.Numbers.{with_number, without_number};
ghost use Rattle.rerun_driver.specs.code.Places.{numbers_at, IsStill, IsGoneWhere};

use crate::numbers::Numbers;
use plain_data::copied;
use rdt_types::Address;
use std::alloc::{AllocError, Global};
use std::collections::BTreeMap;

/// For each address the numbers of watches.
#[derive(Drop)]
pub(crate) struct Places {
    alloc: Global,
    sets: BTreeMap<Address, Numbers>,
}

/// Puts a number into a set where it is there or there is room, and answers whether that was so.
fn put_in(set: &mut Numbers, number: u64) -> bool
    ensures put { OnTrue result (set.new.0 ≡ with_number set.old.0 number) }
    ensures none { result ≡ false → set.new ≡ set.old }
{
    if set.has(number) {
        return true;
    }
    if !set.has_room() {
        return false;
    }
    set.put(number);
    true
}

impl Places {
    /// Nobody stands anywhere. It is never refused for want of memory.
    pub fn new(alloc: Global) -> Places
        ensures { (a : Address) → numbers_at result a ≡ [] }
    {
        Places {
            alloc,
            sets: BTreeMap::new(alloc),
        }
    }

    /// The numbers at an address.
    pub fn at(&self, address: &Address) -> &[u64]
        ensures { result.now ≡ numbers_at self.now address.now }
    {
        match self.sets.get(address) {
            Some(set) => set.as_slice(),
            None => &[],
        }
    }

    /// Takes the memory for one number more at an address.
    pub fn reserve(&mut self, address: &Address) -> Result<(), AllocError>
        ensures { (a : Address) → numbers_at self.new a ≡ numbers_at self.old a }
    {
        if let Some(set) = self.sets.get_mut(address) {
            return set.reserve(1);
        }
        let mut set = Numbers::new(self.alloc);
        set.reserve(1)?;
        self.sets.insert(copied(address)?, set)?;
        Ok(())
    }

    /// Puts a number at an address, where there is memory for it, and answers whether there was. It takes none.
    pub fn put(&mut self, address: &Address, number: u64) -> bool
        ensures put { OnTrue result ((a : Address) → numbers_at self.new a
            ≡ (if is_at (address_cmp address.now) a then with_number (numbers_at self.old a) number else numbers_at self.old a)) }
        ensures none { result ≡ false → IsStill self.old self.new }
    {
        match self.sets.get_mut(address) {
            Some(set) => put_in(set, number),
            None => false,
        }
    }

    /// Takes a number from an address. It is never refused for want of memory.
    pub fn take_out(&mut self, address: &Address, number: u64)
        ensures taken { (a : Address) → numbers_at self.new a
            ≡ (if is_at (address_cmp address.now) a then without_number (numbers_at self.old a) number else numbers_at self.old a) }
        ensures gone { IsGoneWhere (is_at (address_cmp address.now)) number self.new }
    {
        if let Some(set) = self.sets.get_mut(address) {
            set.take_out(number);
        }
    }

    /// Gives the memory for an address back, where nobody stands there. It takes none.
    pub fn sweep(&mut self, address: &Address)
        ensures { (a : Address) → numbers_at self.new a ≡ numbers_at self.old a }
    {
        if self.at(address).is_empty() {
            self.sets.remove(address);
        }
    }
}
