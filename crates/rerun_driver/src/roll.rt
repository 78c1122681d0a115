//! The watches of a client by their names and by their numbers.

ghost use Rattle.std.specs.Prelude.{◌≡◌, [], false, None, is_some, length, option_map, position, OnOk, OnErr, IfOk, IfSome, IfNone};
ghost use Rattle.std.specs.List.{list_any};
ghost use Rattle.std.specs.Map.{values_of};
ghost use Rattle.std.specs.Option.{option_copied};
ghost use Rattle.rerun_driver.specs.Watches as spec;
ghost use Rattle.rerun_driver.specs.Watches.{watch_of, first_stale, bodies_of, stale_of};
ghost use Rattle.rerun_driver.specs.code.Numbers.{IsRising};
ghost use Rattle.rerun_driver.specs.code.Rolls.{IsInOrder, body_by, number_of, seen_by, SettlesSeen, stale_numbers, told_at, told_place};
ghost use Rattle.rerun_driver.specs.code.Shown.{shown};

use crate::numbers::Numbers;
use crate::touching::is_observed_by;
use crate::watch::{StaleWatch, Watch};
use indexmap::IndexMap;
use plain_data::Text;
use rdt_types::{Address, DeltaMap};
use std::alloc::{AllocError, Global};
use std::marker::Model;
use txn_lang::{Run, Seen, SeenList};

/// The watches by their names, in the order of their making, with the number that each was given then, and the numbers of
/// the stale ones.
#[derive(Drop)]
pub(crate) struct Roll {
    order: Numbers,
    watches: IndexMap<Vec<u8>, Watch>,
    stale: Numbers,
    /// The number of the next watch.
    made: u64,
}

impl Model for Roll {
    ghost use Rattle.std.specs.Coded.{coded×, coded_list, coded_ℕ};
    ghost use Rattle.rerun_driver.specs.contracts.watch.Watch as watch;
    ghost use Rattle.rerun_driver.specs.code.Rolls.{Rolled, IsRoll};
    ghost use Rattle.rerun_driver.specs.code.Shown.{shown};

    ghost Value = { Rolled };

    ghost coded = { coded× (coded_list coded_ℕ) (coded_list (coded× (coded_list coded_ℕ) watch.the_row.coded)) };

    ghost view = { λ r. (r.order.0, shown r.watches.entries) };

    ghost invariant = { λ r. IsRoll r.order r.stale r.made r.watches.entries };
}

/// The place of the first stale watch, by the first number of a stale one.
fn first_stale_place(order: &Numbers, stale: &Numbers, watches: &[Watch]) -> Option<usize>
    requires rising { IsRising order.now.0 }
    requires listed { stale.now.0 ≡ stale_numbers order.now.0 watches.now }
    requires as_many { length order.now.0 ≡ length watches.now }
    ensures { result ≡ position (λ watch. watch.stale) watches.now }
{
    match stale.get(0) {
        Some(number) => order.place_of(number),
        None => None,
    }
}

/// Whether the last run of a watch observed something at an address.
fn any_observes(watches: &[Watch], address: &Address) -> bool
    ensures { result ≡ list_any (spec.has_observed address.now) watches.now }
{
    watches.iter().any(|watch| is_observed_by(address, watch.observations.as_slice()))
}

impl Roll {
    /// No watch yet. It is never refused for want of memory.
    pub fn new(alloc: Global) -> Roll
        ensures { result ≡ ([], []) }
    {
        Roll {
            order: Numbers::new(alloc),
            watches: IndexMap::new(alloc),
            stale: Numbers::new(alloc),
            made: 0,
        }
    }

    /// The numbers, in the order of the making.
    pub fn numbers(&self) -> &[u64]
        ensures { result.now ≡ self.now.0 }
    {
        self.order.as_slice()
    }

    /// Whether a name is in use.
    pub fn has(&self, name: &Text) -> bool
        ensures { result ≡ is_some (watch_of self.now.1 name.now) }
    {
        self.watches.contains_key(name.as_slice())
    }

    /// The watch of a name, if there is one.
    pub fn get(&self, name: &Text) -> Option<&Watch>
        ensures { option_copied result ≡ watch_of self.now.1 name.now }
    {
        self.watches.get(name.as_slice())
    }

    /// The number of the watch of a name.
    fn number_of(&self, name: &Text) -> Option<u64>
        ensures { result ≡ number_of self.now name.now }
    {
        match self.watches.get_index_of(name.as_slice()) {
            Some(place) => self.order.get(place),
            None => None,
        }
    }

    /// What the watch of a number observed at its last run; nothing where there is none.
    pub fn observations(&self, number: u64) -> &[Seen]
        ensures { result.now ≡ seen_by self.now number }
    {
        let Some(place) = self.order.place_of(number) else {
            return &[];
        };
        match self.watches.get_index(place) {
            Some((_, watch)) => watch.observations.as_slice(),
            None => &[],
        }
    }

    /// A new watch is the last. It answers its number. For want of memory the watch is dropped.
    pub fn add(&mut self, name: Text, watch: Watch) -> Result<u64, AllocError>
        requires free { watch_of self.old.1 name ≡ None }
        requires fresh { watch.stale ≡ false }
        ensures ok { OnOk result (self.new.1 ≡ spec.with_watch self.old.1 name watch) }
        ensures seen { IfOk result (λ made. SettlesSeen made watch.observations self.old self.new) }
        ensures unseen { IfOk result (λ made. seen_by self.old made ≡ []) }
        ensures order { IsInOrder self.new }
        ensures err { OnErr result (self.new ≡ self.old) }
    {
        let made = self.made;
        if made == u64::MAX {
            return Err(AllocError);
        }
        self.order.reserve(1)?;
        self.stale.reserve(self.watches.len() + 1)?;
        self.watches.insert(name.into_vec(), watch)?;
        self.order.put(made);
        self.made = made + 1;
        Ok(made)
    }

    /// Forgets the watch of a name, and answers it with its number. It is never refused for want of memory.
    pub fn remove(&mut self, name: &Text) -> Option<(u64, Watch)>
        ensures answer { is_some result ≡ is_some (watch_of self.old.1 name.now) }
        ensures gone { self.new.1 ≡ spec.without_watch self.old.1 name.now }
        ensures none { IfNone result (self.new ≡ self.old) }
        ensures seen { IfSome result (λ r. SettlesSeen r.0 [] self.old self.new) }
        ensures before { IfSome result (λ r. r.1.observations ≡ seen_by self.old r.0) }
        ensures order { IsInOrder self.new }
    {
        let Some(made) = self.number_of(name) else {
            return None;
        };
        let Some(watch) = self.watches.shift_remove(name.as_slice()) else {
            return None;
        };
        self.order.take_out(made);
        self.stale.take_out(made);
        Some((made, watch))
    }

    /// Tells the watch at a place of changes.
    fn tell_place(&mut self, place: usize, changes: &DeltaMap)
        ensures { self.new ≡ (self.old.0, told_place changes.now place self.old.1) }
    {
        let Some(number) = self.order.get(place) else {
            return;
        };
        let turned = self.watches[place].tell(changes);
        if turned {
            self.stale.put(number);
        }
    }

    /// Tells the watch of a number of changes, where there is one. It is never refused for want of memory.
    pub fn tell(&mut self, number: u64, changes: &DeltaMap)
        ensures { self.new ≡ told_at changes.now self.old number }
    {
        if let Some(place) = self.order.place_of(number) {
            self.tell_place(place, changes);
        }
    }

    /// Tells all watches of changes. It is never refused for want of memory.
    pub fn tell_all(&mut self, changes: &DeltaMap)
        ensures { self.new ≡ (self.old.0, spec.all_told changes.now self.old.1) }
    {
        for place in 0..self.watches.len() {
            self.tell_place(place, changes);
        }
    }

    /// The watch of a name takes the report of its run at a number. It answers the number that it was given at its making,
    /// and what its run before observed, and is never refused for want of memory.
    pub fn settle(&mut self, name: &Text, number: u64, run: Run) -> Option<(u64, SeenList)>
        ensures kept { self.new ≡ (self.old.0, spec.with_report self.old.1 name.now number run) }
        ensures answer { is_some result ≡ is_some (watch_of self.old.1 name.now) }
        ensures seen { IfSome result (λ r. SettlesSeen r.0 run.observations self.old self.new) }
        ensures before { IfSome result (λ r. r.1 ≡ seen_by self.old r.0) }
        ensures order { IsInOrder self.new }
    {
        let Some(made) = self.number_of(name) else {
            return None;
        };
        let Some(watch) = self.watches.get_mut(name.as_slice()) else {
            return None;
        };
        let before = watch.settle(number, run);
        self.stale.take_out(made);
        Some((made, before))
    }

    /// The first stale watch, with its name.
    pub fn first_stale(&self) -> Option<(&[u8], &Watch)>
        ensures { option_map (λ entry. (entry.0.now, entry.1.now)) result ≡ first_stale self.now.1 }
    {
        let watches = self.watches.values();
        let Some(place) = first_stale_place(&self.order, &self.stale, watches.as_slice()) else {
            return None;
        };
        match self.watches.get_index(place) {
            Some((name, watch)) => Some((name.as_slice(), watch)),
            None => None,
        }
    }

    /// The watch of a number, as far as a rerun goes.
    fn watch_at(&self, number: u64) -> Option<StaleWatch<'_>>
        ensures { option_map (λ watch. (watch.name.now, watch.body.now)) result ≡ body_by self.now number }
    {
        let Some(place) = self.order.place_of(number) else {
            return None;
        };
        match self.watches.get_index(place) {
            Some((name, watch)) => Some(StaleWatch {
                name: name.as_slice(),
                body: &watch.body,
            }),
            None => None,
        }
    }

    /// The stale watches, in the order of their making.
    pub fn stale(&self, alloc: Global) -> Result<Vec<StaleWatch<'_>>, AllocError>
        ensures { IfOk result (λ list. bodies_of list.items ≡ stale_of self.now.1) }
    {
        let numbers = self.stale.as_slice();
        let mut list = Vec::with_capacity(alloc, numbers.len())?;
        for number in numbers {
            if let Some(watch) = self.watch_at(*number) {
                list.push(watch)?;
            }
        }
        Ok(list)
    }

    /// Whether the last run of a watch observed something at an address.
    pub fn any_observes(&self, address: &Address) -> bool
        ensures { result ≡ spec.is_observed self.now.1 address.now }
    {
        let watches = self.watches.values();
        any_observes(watches.as_slice(), address)
    }
}
