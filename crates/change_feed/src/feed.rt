//! Changes by their addresses.

ghost use Rattle.std.specs.Prelude.{◌≡◌, OnOk, OnErr, IfOk};
ghost use Rattle.change_feed.specs.Feeds as spec;

use plain_data::{OrderedMap, copied};
use rdt_types::{Address, Delta, DeltaMap, add_delta};
use std::alloc::{AllocError, Global};
use std::marker::Model;

/// What the changes of commits up to a number come to: at each changed address one delta.
#[derive(Drop)]
pub struct Feed {
    alloc: Global,
    to: u64,
    changes: DeltaMap,
}

impl Model for Feed {
    ghost use Rattle.rdt_types.specs.contracts.address.Address as address;
    ghost use Rattle.rdt_types.specs.contracts.delta.Delta as delta;
    ghost use Rattle.change_feed.specs.Feeds.{Fed, fed_code};

    ghost Value = { Fed };

    ghost coded = { fed_code address.the_row.coded delta.the_row.coded };

    ghost view = { λ f. record { to = f.to; changes = f.changes } };
}

/// Deltas and then others, each after what stands at its address.
fn joined(
    alloc: Global,
    changes: &DeltaMap,
    later: &[(Address, Delta)],
) -> Result<DeltaMap, AllocError>
    ensures { IfOk result (λ all. all ≡ spec.joined changes.now later.now) }
{
    let mut all = copied(changes)?;
    for (address, delta) in later {
        add_delta(alloc, &mut all, copied(address)?, copied(delta)?)?;
    }
    Ok(all)
}

impl Feed {
    /// Nothing changed, up to a number. It is never refused for want of memory.
    pub fn new(alloc: Global, to: u64) -> Feed
        ensures { result ≡ spec.begun to }
    {
        Feed {
            alloc,
            to,
            changes: OrderedMap::new(alloc),
        }
    }

    /// Up to which commit it goes.
    pub fn to(&self) -> u64
        ensures { result ≡ self.now.to }
    {
        self.to
    }

    /// The changes, by rising address.
    pub fn changes(&self) -> &DeltaMap
        ensures { result.now ≡ self.now.changes }
    {
        &self.changes
    }

    /// Adds a delta at an address, after what stands there.
    pub fn add(&mut self, address: &Address, delta: &Delta) -> Result<(), AllocError>
        ensures ok { OnOk result (self.new ≡ spec.with_change self.old address.now delta.now) }
        ensures err { OnErr result (self.new ≡ self.old) }
    {
        add_delta(
            self.alloc,
            &mut self.changes,
            copied(address)?,
            copied(delta)?,
        )?;
        Ok(())
    }

    /// Adds all of a later feed, and goes as far as it does. The whole is made before anything changes.
    pub fn join(&mut self, later: &Feed) -> Result<(), AllocError>
        ensures ok { OnOk result (self.new ≡ spec.with_feed self.old later.now) }
        ensures err { OnErr result (self.new ≡ self.old) }
    {
        self.changes = joined(self.alloc, &self.changes, later.changes.as_slice())?;
        self.to = later.to;
        Ok(())
    }
}
