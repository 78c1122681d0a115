//! The values that commits leave, kept by address and changed in place.

ghost use Rattle.std.specs.Prelude.{◌≡◌, [], IfOk, OnOk, OnErr};
ghost use Rattle.std.specs.List.Sorted.{IsStrictlySortedBy};
ghost use Rattle.std.specs.Map.{keys_of};
ghost use Rattle.rdt_types.specs.Addresses.{address_cmp};
ghost use Rattle.rdt_types.specs.Deltas as deltas;
ghost use Rattle.audit_core.specs.Dumps as spec;
ghost use Rattle.audit_core.specs.code.Running as code;

use rdt_types::{Address, Delta, DeltaMap, Value, apply, default_value};
use std::alloc::{AllocError, Global};
use std::collections::BTreeMap;
use std::marker::Model;
use std::mem::replace;
use txn_lang::Snap;

/// A value at each address that was written.
#[derive(Drop)]
pub(crate) struct State {
    alloc: Global,
    values: BTreeMap<Address, Value>,
}

impl Model for State {
    ghost use Rattle.std.specs.Coded.{coded_list, coded×};
    ghost use Rattle.rdt_types.specs.contracts.address.Address as address;
    ghost use Rattle.rdt_types.specs.contracts.value.Value as value;
    ghost use Rattle.audit_core.specs.Dumps.{Values};

    ghost Value = { Values };

    ghost coded = { coded_list (coded× address.the_row.coded value.the_row.coded) };

    ghost view = { λ s. s.values.entries };
}

/// Applies a delta to a value.
fn change_value(alloc: Global, value: &mut Value, delta: &Delta) -> Result<(), AllocError>
    ensures changed { OnOk result (value.new ≡ deltas.apply delta.now value.old) }
    ensures same { OnErr result (value.new ≡ value.old) }
{
    *value = apply(alloc, delta, value)?;
    Ok(())
}

/// Whether a value is one number or truth value.
fn is_small(value: &Value) -> bool
    ensures { result ≡ code.is_small value.now }
{
    matches!(value, Value::Bool(_) | Value::Counter(_) | Value::Peak(_))
}

/// Lends the value at a place. One that is small is copied, and of any other one this is left in its place.
fn lend_from(place: &mut Value, other: Value) -> Value
    ensures value { result ≡ place.old }
    ensures left { place.new ≡ code.left_of place.old other }
{
    match place {
        Value::Bool(b) => Value::Bool(*b),
        Value::Counter(number) => Value::Counter(*number),
        Value::Peak(number) => Value::Peak(*number),
        _ => replace(place, other),
    }
}

/// Puts a value in the place of the one that is kept at its address, unless it is small.
#[tactic(auto, using(crate::proofs::Lending::nothing_put))]
fn put_back(values: &mut BTreeMap<Address, Value>, address: Address, snap: Snap)
    ensures { values.new.entries ≡ code.with_snap values.old.entries (address, snap) }
{
    if is_small(&snap.value) {
        return;
    }
    if let Some(place) = values.get_mut(&address) {
        *place = snap.value;
    }
}

/// Puts values back in their places.
fn put_all(values: &mut BTreeMap<Address, Value>, snaps: Vec<(Address, Snap)>)
    ensures { values.new.entries ≡ code.with_snaps values.old.entries snaps.items }
{
    for (address, snap) in snaps {
        put_back(values, address, snap);
    }
}

impl State {
    /// Nothing was written yet.
    pub(crate) fn new(alloc: Global) -> State
        ensures { result ≡ [] }
    {
        State {
            alloc,
            values: BTreeMap::new(alloc),
        }
    }

    /// Lends the value at an address. One number or truth value is copied; of any other value the default is kept in its place.
    #[tactic(auto, using(crate::proofs::Lending::nothing_put))]
    pub(crate) fn lend(&mut self, address: &Address) -> Value
        ensures value { result ≡ spec.state_of self.old address.now }
        ensures without { self.new ≡ code.without_value self.old address.now }
    {
        let default = default_value(self.alloc, address.kind);
        match self.values.get_mut(address) {
            Some(place) => lend_from(place, default),
            None => default,
        }
    }

    /// Takes values back that were lent.
    pub(crate) fn take_back(&mut self, snaps: Vec<(Address, Snap)>)
        ensures { self.new ≡ code.with_snaps self.old snaps.items }
    {
        put_all(&mut self.values, snaps);
    }

    /// Applies the first delta at an address.
    fn change_first(&mut self, address: &Address, delta: &Delta) -> Result<(), AllocError>
        ensures { OnOk result (self.new ≡ spec.with_first self.old address.now delta.now) }
    {
        let value = apply(self.alloc, delta, &default_value(self.alloc, address.kind))?;
        self.values.insert(address.clone()?, value)?;
        Ok(())
    }

    /// Applies a delta to the value at an address, in its place where one is kept.
    fn change(&mut self, address: &Address, delta: &Delta) -> Result<(), AllocError>
        ensures { OnOk result (self.new ≡ spec.with_change self.old (address.now, delta.now)) }
    {
        match self.values.get_mut(address) {
            Some(value) => change_value(self.alloc, value, delta),
            None => self.change_first(address, delta),
        }
    }

    /// Applies the deltas of a commit.
    pub(crate) fn change_all(&mut self, deltas: &DeltaMap) -> Result<(), AllocError>
        ensures changed { OnOk result (self.new ≡ spec.with_deltas self.old deltas.now) }
        ensures rising { IsStrictlySortedBy address_cmp (keys_of deltas.now) }
    {
        for (address, delta) in deltas.as_slice() {
            self.change(address, delta)?;
        }
        Ok(())
    }

    /// The values, by rising address.
    pub(crate) fn into_pairs(self) -> Result<Vec<(Address, Value)>, AllocError>
        ensures { IfOk result (λ pairs. pairs.items ≡ self) }
    {
        let State { alloc, values } = self;
        values.into_iter().collect(alloc)
    }
}
