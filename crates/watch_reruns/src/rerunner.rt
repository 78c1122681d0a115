//! Who runs stale watches anew, and one who does it alone.

ghost use Rattle.std.specs.Prelude.{◌≡◌, IfOk};
ghost use Rattle.client_cache.specs.Cached.{held};
ghost use Rattle.rerun_driver.specs.Watches.{bodies_of};
ghost use Rattle.watch_reruns.specs.Reruns.{all_reruns, reruns_of};

use crate::reruns::{Reruns, RunList, WatchRun, run_watch};
use client_cache::Cache;
use rerun_driver::{Driver, StaleWatch};
use std::alloc::{AllocError, Global};

/// Runs stale watches anew.
pub trait Rerunner {
    /// The runs of a driver's stale watches on the values of a cache.
    fn rerun(&self, alloc: Global, driver: &Driver, cache: &Cache) -> Result<Reruns, AllocError>
        ensures { IfOk result (λ all. all ≡ all_reruns (held cache.now) driver.now) };
}

/// Runs them one after another, as far as the first that needs a value.
#[derive(Clone, Copy)]
pub struct One;

impl Rerunner for One {
    fn rerun(&self, alloc: Global, driver: &Driver, cache: &Cache) -> Result<Reruns, AllocError> {
        let stale = driver.stale()?;
        run_watches(alloc, stale.as_slice(), cache)
    }
}

/// Runs watches one after another, as far as the first that needs a value.
fn run_watches(alloc: Global, stale: &[StaleWatch<'_>], cache: &Cache) -> Result<Reruns, AllocError>
    ensures { IfOk result (λ all. all ≡ reruns_of (held cache.now) (bodies_of stale.now)) }
{
    let mut list = RunList::new(alloc);
    for watch in stale {
        match run_watch(alloc, watch, cache)? {
            WatchRun::Need(address) => return Ok(Reruns::Need(address)),
            WatchRun::Done(name, run) => list.push((name, run))?,
        }
    }
    Ok(Reruns::Ran(list))
}
