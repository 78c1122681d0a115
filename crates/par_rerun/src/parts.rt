//! The reruns of a part of a list, and of two parts one behind the other.

ghost use Rattle.std.specs.Prelude.{◌≡◌, drop, take, IfOk};
ghost use Rattle.client_cache.specs.Cached.{held};
ghost use Rattle.rerun_driver.specs.Watches.{bodies_of, stale_of};
ghost use Rattle.watch_reruns.specs.Reruns.{reruns_of};
ghost use Rattle.par_rerun.specs.Parts.{in_turn};

use crate::meet::Meet;
use client_cache::Cache;
use rerun_driver::Driver;
use std::alloc::{AllocError, Global};
use watch_reruns::{Reruns, RunList, StaleWatch, WatchRun, run_watch};

/// Runs watches one after another, as far as the first that needs a value. The first one's place is given.
fn run_listed<M: Meet>(
    alloc: Global,
    meet: &M,
    first: usize,
    part: &[StaleWatch<'_>],
    cache: &Cache,
) -> Result<Reruns, AllocError>
    ensures { IfOk result (λ all. all ≡ reruns_of (held cache.now) (bodies_of part.now)) }
{
    let mut place = u32::try_from(first).unwrap_or(u32::MAX);
    let mut list = RunList::new(alloc);
    for watch in part {
        meet.at(place);
        place = place.saturating_add(1);
        match run_watch(alloc, watch, cache)? {
            WatchRun::Need(address) => return Ok(Reruns::Need(address)),
            WatchRun::Done(name, run) => list.push((name, run))?,
        }
    }
    Ok(Reruns::Ran(list))
}

/// Those of a list that are behind its first ones.
fn behind<'s, 'w>(stale: &'s [StaleWatch<'w>], from: usize) -> &'s [StaleWatch<'w>]
    ensures { result.now ≡ drop from stale.now }
{
    &stale[from.min(stale.len())..]
}

/// The reruns of so many of a driver's stale watches, from a place on.
pub(crate) fn run_part<M: Meet>(
    alloc: Global,
    meet: &M,
    driver: &Driver,
    cache: &Cache,
    from: usize,
    size: usize,
) -> Result<Reruns, AllocError>
    ensures { IfOk result (λ all. all ≡ reruns_of (held cache.now) (take size (drop from (stale_of driver.now)))) }
{
    let stale = driver.stale()?;
    let rest = behind(stale.as_slice(), from);
    run_listed(alloc, meet, from, &rest[..size.min(rest.len())], cache)
}

/// The reruns of all of a driver's stale watches from a place on.
pub(crate) fn run_behind<M: Meet>(
    alloc: Global,
    meet: &M,
    driver: &Driver,
    cache: &Cache,
    from: usize,
) -> Result<Reruns, AllocError>
    ensures { IfOk result (λ all. all ≡ reruns_of (held cache.now) (drop from (stale_of driver.now))) }
{
    let stale = driver.stale()?;
    run_listed(alloc, meet, from, behind(stale.as_slice(), from), cache)
}

/// What a part comes to, and those behind it.
pub(crate) fn followed(first: Reruns, others: Reruns) -> Result<Reruns, AllocError>
    ensures { IfOk result (λ all. all ≡ in_turn first others) }
{
    match (first, others) {
        (Reruns::Ran(list), Reruns::Ran(more)) => {
            let mut list = list.into_vec();
            list.append(&mut more.into_vec())?;
            Ok(Reruns::Ran(RunList::from_vec(list)))
        }
        (Reruns::Need(address), _) => Ok(Reruns::Need(address)),
        (_, Reruns::Need(address)) => Ok(Reruns::Need(address)),
    }
}
