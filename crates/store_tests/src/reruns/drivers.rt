//! Drivers whose watches are all stale, whatever their bodies look at.

use change_feed::Feed;
use conflict_table::Obs;
use plain_data::Text;
use rdt_types::{Address, Delta, DeltaMap, ItemList, Kind, Outcome};
use rerun_driver::Driver;
use std::alloc::Global;
use txn_lang::{Checked, Run, Seen, SeenList};

/// The counter that the last run of every watch has looked at.
const LOOKED_AT: &[u8] = b"looked at";

/// The address of a counter.
pub(crate) fn counter(alloc: Global, key: &[u8]) -> Option<Address> {
    Some(Address {
        kind: Kind::Counter,
        key: Text::from_slice(alloc, key).ok()?,
    })
}

/// A run that has looked at that counter alone.
fn last_run(alloc: Global) -> Option<Run> {
    let mut observations = SeenList::new(alloc);
    observations
        .push(Seen {
            address: counter(alloc, LOOKED_AT)?,
            obs: Obs::CounterIs,
        })
        .ok()?;
    Some(Run {
        outcome: Outcome::Ok(ItemList::new(alloc)),
        deltas: DeltaMap::new(alloc),
        observations,
    })
}

/// A watch more, unless its name is in use.
pub(crate) fn put(driver: &mut Driver, alloc: Global, name: Text, body: Checked) -> Option<()> {
    let run = last_run(alloc)?;
    if driver.has(&name) {
        return None;
    }
    driver.watch(name, body, 0, run).ok()
}

/// All watches become stale.
pub(crate) fn touch_all(driver: &mut Driver, alloc: Global) -> Option<()> {
    let mut feed = Feed::new(alloc, 1);
    feed.add(&counter(alloc, LOOKED_AT)?, &Delta::AddCounter(1))
        .ok()?;
    driver.advance(&feed);
    Some(())
}
