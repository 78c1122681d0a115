//! What a run has observed.

ghost use Rattle.std.specs.Prelude.{◌≡◌, ◌≤◌, Some, if◌then◌else◌, [], take, length, OnOk, OnErr};
ghost use Rattle.std.specs.Option.{option_copied};
ghost use Rattle.std.specs.BTreeMap.{is_at};
ghost use Rattle.txn_lang.specs.Own.{with_seen};
ghost use Rattle.txn_eval.specs.declared.seen_key.SeenKey.{SeenKey};
ghost use Rattle.txn_eval.specs.contracts.seen_key.SeenKeyOrd.TheImpl as order;
ghost use Rattle.txn_eval.specs.code.Found.{place_kept, stands};
ghost use Rattle.txn_eval.specs.declared.observed.TheConstants.{LOOKED_THROUGH};

use crate::seen_key::{SeenKey, key_of};
use plain_data::Sequence;
use std::alloc::{AllocError, Global};
use std::collections::BTreeMap;
use std::marker::Model;
use txn_lang::{Seen, SeenList};

/// So many observations are looked through one by one. Few bodies make more.
const LOOKED_THROUGH: usize = 8;

/// Observations in the order of their first making, each once. The first ones are looked through, and one behind them is
/// found in a tree.
#[derive(Drop)]
pub(crate) struct Observed {
    list: SeenList,
    /// The places of those behind the first ones. A place counts only where that observation stands there.
    places: BTreeMap<SeenKey, usize>,
}

impl Model for Observed {
    ghost use Rattle.std.specs.Prelude.{List};
    ghost use Rattle.txn_lang.specs.declared.run.Seen.{Seen};
    ghost use Rattle.txn_eval.specs.code.Found.{AreFound};
    ghost use Rattle.txn_eval.specs.declared.observed.TheConstants.{LOOKED_THROUGH};

    ghost Value = { List Seen };

    ghost view = { λ o. o.list };

    ghost invariant = { λ o. AreFound LOOKED_THROUGH o.places o.list };
}

/// Whether an observation stands at the place that is kept with its key.
fn stands_at(list: &[Seen], place: Option<&usize>, seen: &Seen) -> bool
    ensures { result ≡ stands (option_copied place.entry) list.now seen.now }
{
    match place {
        None => false,
        Some(place) => match list.get(*place) {
            None => false,
            Some(other) => other == seen,
        },
    }
}

/// Keeps the place of a key, in the stead of one that was kept.
fn keep(keys: &mut BTreeMap<SeenKey, usize>, key: SeenKey, place: usize) -> Result<(), AllocError>
    ensures ok { OnOk result ((q : SeenKey) → place_kept keys.new q ≡ (if is_at (order.ghosts.cmp key) q then Some place else place_kept keys.old q)) }
    ensures err { OnErr result (keys.new.entries ≡ keys.old.entries) }
{
    keys.insert(key, place)?;
    Ok(())
}

impl Observed {
    /// Nothing was observed. It is never refused for want of memory.
    pub fn new(alloc: Global) -> Observed
        ensures { result ≡ [] }
    {
        Observed {
            list: Sequence::new(alloc),
            places: BTreeMap::new(alloc),
        }
    }

    /// Lists an observation, unless it is listed.
    pub fn note(&mut self, seen: Seen) -> Result<(), AllocError>
        ensures ok { OnOk result (self.new ≡ with_seen self.old seen) }
        ensures err { OnErr result (self.new ≡ self.old) }
    {
        if self.list.len() >= LOOKED_THROUGH {
            return self.note_behind(seen);
        }
        if self.list.as_slice().contains(&seen) {
            return Ok(());
        }
        self.list.push(seen)
    }

    /// Lists an observation where the first ones are there, unless it is listed among or behind them.
    fn note_behind(&mut self, seen: Seen) -> Result<(), AllocError>
        requires { LOOKED_THROUGH ≤ length self.old }
        ensures ok { OnOk result (self.new ≡ with_seen self.old seen) }
        ensures err { OnErr result (self.new ≡ self.old) }
    {
        if self.list.as_slice()[..LOOKED_THROUGH].contains(&seen) {
            return Ok(());
        }
        let key = key_of(&seen)?;
        if stands_at(self.list.as_slice(), self.places.get(&key), &seen) {
            return Ok(());
        }
        let count = self.list.len();
        self.list.push(seen)?;
        match keep(&mut self.places, key, count) {
            Ok(()) => Ok(()),
            Err(error) => {
                self.list.truncate(count);
                Err(error)
            }
        }
    }

    /// Forgets all but the first so many. It is never refused for want of memory: the places of those that it forgets stay,
    /// and nothing stands there that has their keys.
    pub fn cut(&mut self, count: usize)
        ensures { self.new ≡ take count self.old }
    {
        self.list.truncate(count);
    }

    /// How many observations are listed.
    pub fn len(&self) -> usize
        ensures { result ≡ length self.now }
    {
        self.list.len()
    }

    /// The observations in order. It is never refused for want of memory.
    pub fn into_list(self) -> SeenList
        ensures { result ≡ self }
    {
        let Observed { list, places: _ } = self;
        list
    }
}
