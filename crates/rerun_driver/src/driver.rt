//! A client's watches.

ghost use Rattle.std.specs.Prelude.{◌≡◌, [], None, IsSome, is_some, OnOk, OnErr, IfOk};
ghost use Rattle.std.specs.List.{list_any};
ghost use Rattle.std.specs.Option.{option_copied};
ghost use Rattle.client_cache.specs.Cached.{held};
ghost use Rattle.rerun_driver.specs.Watches as spec;
ghost use Rattle.rerun_driver.specs.Watches.{with_watch, reported, watch_of, is_observed, next_rerun, bodies_of, stale_of};
ghost use Rattle.rerun_driver.specs.code.Rolls.{has_seen};

use crate::places::Places;
use crate::placing::{make_room, put_watch, sweep_all, take_all};
use crate::rerun::{Rerun, run_watch};
use crate::roll::Roll;
use crate::telling::tell_placed;
use crate::touching::{are_where, is_observed_by};
use crate::watch::{StaleWatch, Watch};
use change_feed::Feed;
use client_cache::Cache;
use plain_data::Text;
use rdt_types::Address;
use std::alloc::{AllocError, Global};
use std::marker::Model;
use txn_lang::{Checked, Run};

/// The watches of a client by their names, in the order of their making. It also keeps which of them stand at an address,
/// so that a feed costs the watches at its addresses.
#[derive(Drop)]
pub struct Driver {
    alloc: Global,
    roll: Roll,
    places: Places,
    /// Whether each watch stands at all addresses that its last run observed.
    is_placed: bool,
}

impl Model for Driver {
    ghost use Rattle.std.specs.Coded.{coded×, coded_list, coded_ℕ};
    ghost use Rattle.rerun_driver.specs.contracts.watch.Watch as watch;
    ghost use Rattle.rerun_driver.specs.Watches.{Watches};
    ghost use Rattle.rerun_driver.specs.code.Rolls.{IsPlaced};

    ghost Value = { Watches };

    ghost coded = { coded_list (coded× (coded_list coded_ℕ) watch.the_row.coded) };

    ghost view = { λ d. d.roll.1 };

    ghost invariant = { λ d. IsPlaced d.is_placed d.places d.roll };
}

/// Whether one of the watches of some numbers observed something at an address.
fn any_observes(roll: &Roll, numbers: &[u64], address: &Address) -> bool
    ensures { result ≡ list_any (has_seen roll.now address.now) numbers.now }
{
    numbers.iter().any(|number| is_observed_by(address, roll.observations(*number)))
}

impl Driver {
    /// No watch yet. It is never refused for want of memory.
    pub fn new(alloc: Global) -> Driver
        ensures { result ≡ [] }
    {
        Driver {
            alloc,
            roll: Roll::new(alloc),
            places: Places::new(alloc),
            is_placed: true,
        }
    }

    /// Whether a name is in use.
    pub fn has(&self, name: &Text) -> bool
        ensures { result ≡ is_some (watch_of self.now name.now) }
    {
        self.roll.has(name)
    }

    /// Takes the memory that the report of a run will want, so that feeds find its watch by its addresses.
    pub fn reserve(&mut self, run: &Run) -> Result<(), AllocError>
        ensures { self.new ≡ self.old }
    {
        let observations = run.observations.as_slice();
        make_room(
            &self.roll,
            &mut self.places,
            &mut self.is_placed,
            observations,
        )
    }

    /// The watch of a name, if there is one.
    pub fn get(&self, name: &Text) -> Option<&Watch>
        ensures { option_copied result ≡ watch_of self.now name.now }
    {
        self.roll.get(name)
    }

    /// A new watch, whose first run was reported at a number. For want of memory it is dropped.
    pub fn watch(
        &mut self,
        name: Text,
        body: Checked,
        number: u64,
        run: Run,
    ) -> Result<(), AllocError>
        requires free { watch_of self.old name ≡ None }
        ensures ok { OnOk result (self.new ≡ with_watch self.old name (reported body number run)) }
        ensures err { OnErr result (self.new ≡ self.old) }
    {
        let observations = run.observations.as_slice();
        make_room(
            &self.roll,
            &mut self.places,
            &mut self.is_placed,
            observations,
        )?;
        let made = self.roll.add(name, Watch::new(body, number, run))?;
        put_watch(&self.roll, &mut self.places, &mut self.is_placed, made);
        Ok(())
    }

    /// Forgets a watch. It answers whether it was there, and is never refused for want of memory.
    pub fn unwatch(&mut self, name: &Text) -> bool
        ensures answer { result ≡ is_some (watch_of self.old name.now) }
        ensures gone { self.new ≡ spec.without_watch self.old name.now }
    {
        let Some((made, watch)) = self.roll.remove(name) else {
            return false;
        };
        take_all(&mut self.places, watch.observations.as_slice(), made);
        sweep_all(&mut self.places, watch.observations.as_slice());
        true
    }

    /// Tells all watches of a feed: they become stale where its changes touch what they observed. It is never refused
    /// for want of memory.
    pub fn advance(&mut self, feed: &Feed)
        ensures { self.new ≡ spec.all_told feed.now.changes self.old }
    {
        if self.is_placed {
            tell_placed(&mut self.roll, &self.places, feed.changes());
        } else {
            self.roll.tell_all(feed.changes());
        }
    }

    /// The run of the first stale watch on the values of a cache.
    pub fn run_next(&self, cache: &Cache) -> Result<Rerun, AllocError>
        ensures { IfOk result (λ next. next ≡ next_rerun (held cache.now) self.now) }
    {
        match self.roll.first_stale() {
            Some((name, watch)) => run_watch(self.alloc, name, &watch.body, cache),
            None => Ok(Rerun::NoneLeft),
        }
    }

    /// The stale watches, in the order of their making.
    pub fn stale(&self) -> Result<Vec<StaleWatch<'_>>, AllocError>
        ensures { IfOk result (λ list. bodies_of list.items ≡ stale_of self.now) }
    {
        self.roll.stale(self.alloc)
    }

    /// A watch takes the report of its run at a number. It is never refused for want of memory.
    pub fn settle(&mut self, name: &Text, number: u64, run: Run)
        requires there { IsSome (watch_of self.old name.now) }
        ensures { self.new ≡ spec.with_report self.old name.now number run }
    {
        let Some((made, before)) = self.roll.settle(name, number, run) else {
            return;
        };
        if are_where(self.roll.observations(made), before.as_slice()) {
            // It stands where it stood.
            return;
        }
        take_all(&mut self.places, before.as_slice(), made);
        put_watch(&self.roll, &mut self.places, &mut self.is_placed, made);
        sweep_all(&mut self.places, before.as_slice());
    }

    /// Whether the last run of a watch observed something at an address.
    pub fn observes(&self, address: &Address) -> bool
        ensures { result ≡ is_observed self.now address.now }
    {
        if self.is_placed {
            any_observes(&self.roll, self.places.at(address), address)
        } else {
            self.roll.any_observes(address)
        }
    }
}
