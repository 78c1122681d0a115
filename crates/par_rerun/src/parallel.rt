//! Reruns by as many workers as there are processors.

ghost use Rattle.std.specs.Prelude.{◌≡◌, ◌≤◌, drop, take, IfOk};
ghost use Rattle.client_cache.specs.Cached.{held};
ghost use Rattle.rerun_driver.specs.Watches.{stale_of};
ghost use Rattle.watch_reruns.specs.Reruns.{all_reruns, reruns_of};

use crate::meet::{Meet, NoMeet};
use crate::parts::{followed, run_behind, run_part};
use client_cache::Cache;
use rayon::current_num_threads;
use rerun_driver::Driver;
use std::alloc::{AllocError, Global};
use std::thread::{Threads, join};
use watch_reruns::{Rerunner, Reruns};

/// How few watches are worth a thread.
const LEAST_PART: usize = 512;

/// Runs them in parts, as many as there are processors, each in a thread of its own.
#[derive(Drop)]
pub struct Parallel<'r, M, R> {
    rt: &'r R,
    meet: M,
}

/// A part of a list, from a place on, and how many parts come behind it.
#[derive(Clone, Copy)]
struct Part {
    from: usize,
    size: usize,
    behind: usize,
}

/// In how many parts so many watches are run: no more than there are processors.
fn parts_of(rt: &impl Threads, count: usize) -> usize
    ensures { 1 ≤ result }
{
    let most = count / LEAST_PART;
    if most < 2 {
        1
    } else {
        most.min(current_num_threads(rt)).max(1)
    }
}

/// The reruns of a driver's stale watches from a part on: those of the part in a thread of its own, and meanwhile those behind it
/// by who calls, in parts again. The last part is all that is left.
fn run_from<M: Meet + Sync, R: Threads>(
    rt: &R,
    alloc: Global,
    meet: &M,
    driver: &Driver,
    cache: &Cache,
    part: Part,
) -> Result<Reruns, AllocError>
    ensures { IfOk result (λ all. all ≡ reruns_of (held cache.now) (drop part.from (stale_of driver.now))) }
{
    let Part { from, size, .. } = part;
    let (Some(behind), Some(next)) = (part.behind.checked_sub(1), from.checked_add(size)) else {
        return run_behind(alloc, meet, driver, cache, from);
    };
    let others = Part {
        from: next,
        size,
        behind,
    };
    let (first, others) = join(
        rt,
        || -> Result<Reruns, AllocError>
            ensures { IfOk result (λ all. all ≡ reruns_of (held cache.entry.now) (take size (drop from (stale_of driver.entry.now)))) }
        { run_part(alloc, meet, driver, cache, from, size) },
        || -> Result<Reruns, AllocError>
            ensures { IfOk result (λ all. all ≡ reruns_of (held cache.entry.now) (drop others.from (stale_of driver.entry.now))) }
        { run_from(rt, alloc, meet, driver, cache, others) },
    );
    followed(first?, others?)
}

impl<'r, M: Meet + Sync, R: Threads> Parallel<'r, M, R> {
    /// One whose reruns are told to this.
    pub fn new(rt: &'r R, meet: M) -> Self
        ensures { result.meet ≡ meet }
    {
        Parallel { rt, meet }
    }

    /// The runs of a driver's stale watches on the values of a cache, each told before it is made.
    pub fn rerun_told(
        &self,
        alloc: Global,
        driver: &Driver,
        cache: &Cache,
    ) -> Result<Reruns, AllocError>
        ensures { IfOk result (λ all. all ≡ all_reruns (held cache.now) driver.now) }
    {
        let count = driver.stale()?.len();
        let parts = parts_of(self.rt, count);
        let first = Part {
            from: 0,
            size: count.div_ceil(parts),
            behind: parts - 1,
        };
        run_from(self.rt, alloc, &self.meet, driver, cache, first)
    }
}

impl<'r, R: Threads> Rerunner for Parallel<'r, NoMeet, R> {
    fn rerun(&self, alloc: Global, driver: &Driver, cache: &Cache) -> Result<Reruns, AllocError> {
        self.rerun_told(alloc, driver, cache)
    }
}
