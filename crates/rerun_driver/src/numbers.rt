//! Numbers in rising order.

ghost use Rattle.std.specs.Prelude.{◌≡◌, ◌+◌, ◌≤◌, ◌<◌, [], false, length, slice_get, nat_lt, OnOk};
ghost use Rattle.std.specs.Bool.{OnTrue};
ghost use Rattle.rerun_driver.specs.code.Numbers.{IsRising, is_among, place_in, with_number, without_number};
ghost use Rattle.std.specs.Vec.{vec_capacity};

use std::alloc::{AllocError, Global};
use std::marker::Model;

/// Distinct numbers in rising order. Contracts see them, and for how many there is room.
#[derive(Drop)]
pub(crate) struct Numbers {
    items: Vec<u64>,
}

impl Model for Numbers {
    ghost use Rattle.std.specs.Coded.{coded×, coded_list, coded_ℕ};
    ghost use Rattle.std.specs.Vec.{vec_capacity};
    ghost use Rattle.rerun_driver.specs.code.Numbers.{Roomy, IsRising};

    ghost Value = { Roomy };

    ghost coded = { coded× (coded_list coded_ℕ) coded_ℕ };

    ghost view = { λ n. (n.items.items, vec_capacity n.items) };

    ghost invariant = { λ n. IsRising n.items.items };
}

/// The place of a number, found by halving.
fn place_of(items: &[u64], number: u64) -> Option<usize>
    requires { IsRising items.now }
    ensures { result ≡ place_in items.now number }
{
    items.binary_search(&number).ok()
}

/// Puts a number at its place.
fn put(items: &mut Vec<u64>, number: u64)
    requires rising { IsRising items.old.items }
    requires room { length items.old.items < vec_capacity items.old }
    ensures put { items.new.items ≡ with_number items.old.items number }
    ensures room { vec_capacity items.new ≡ vec_capacity items.old }
{
    match items.as_slice().binary_search(&number) {
        Ok(_) => {}
        Err(place) => {
            let _put = items.insert(place, number);
        }
    }
}

/// Takes a number out, where it is there.
fn take_out(items: &mut Vec<u64>, number: u64)
    requires rising { IsRising items.old.items }
    ensures gone { items.new.items ≡ without_number items.old.items number }
    ensures room { vec_capacity items.new ≡ vec_capacity items.old }
{
    match items.as_slice().binary_search(&number) {
        Ok(place) => {
            items.remove(place);
        }
        Err(_) => {}
    }
}

impl Numbers {
    /// No numbers, and no memory for any.
    pub fn new(alloc: Global) -> Numbers
        ensures { result.0 ≡ [] }
    {
        Numbers {
            items: Vec::new(alloc),
        }
    }

    /// The numbers.
    pub fn as_slice(&self) -> &[u64]
        ensures numbers { result.now ≡ self.now.0 }
        ensures rising { IsRising self.now.0 }
    {
        self.items.as_slice()
    }

    /// The number at a place.
    pub fn get(&self, place: usize) -> Option<u64>
        ensures { result ≡ slice_get self.now.0 place }
    {
        self.items.get(place).copied()
    }

    /// The place of a number.
    pub fn place_of(&self, number: u64) -> Option<usize>
        ensures { result ≡ place_in self.now.0 number }
    {
        place_of(self.items.as_slice(), number)
    }

    /// Whether a number is there: it is put without memory then.
    pub fn has(&self, number: u64) -> bool
        ensures { OnTrue result (with_number self.now.0 number ≡ self.now.0) }
    {
        place_of(self.items.as_slice(), number).is_some()
    }

    /// Whether there is memory for one more.
    pub fn has_room(&self) -> bool
        ensures { result ≡ nat_lt (length self.now.0) self.now.1 }
    {
        self.items.len() < self.items.capacity()
    }

    /// Takes the memory for so many numbers more.
    pub fn reserve(&mut self, more: usize) -> Result<(), AllocError>
        ensures numbers { self.new.0 ≡ self.old.0 }
        ensures room { OnOk result (length self.new.0 + more ≤ self.new.1) }
        ensures grows { self.old.1 ≤ self.new.1 }
    {
        self.items.reserve(more)
    }

    /// Puts a number among the others. It is never refused for want of memory.
    pub fn put(&mut self, number: u64)
        requires { length self.old.0 < self.old.1 }
        ensures { self.new ≡ (with_number self.old.0 number, self.old.1) }
    {
        put(&mut self.items, number)
    }

    /// Takes a number out, where it is there. It is never refused for want of memory.
    pub fn take_out(&mut self, number: u64)
        ensures taken { self.new ≡ (without_number self.old.0 number, self.old.1) }
        ensures gone { is_among self.new.0 number ≡ false }
    {
        take_out(&mut self.items, number)
    }
}
