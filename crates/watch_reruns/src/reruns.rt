//! What the reruns of stale watches come to.

ghost use Rattle.std.specs.Prelude.{◌≡◌, IfOk};
ghost use Rattle.client_cache.specs.Cached.{held};
ghost use Rattle.watch_reruns.specs.Reruns.{watch_rerun};

use client_cache::Cache;
use plain_data::{Sequence, Text};
use rdt_types::Address;
use rerun_driver::{StaleWatch, run_on};
use std::alloc::{AllocError, Global};
use txn_eval::Step;
use txn_lang::Run;

/// The names of watches, each with its run.
pub type RunList = Sequence<(Text, Run)>;

/// What the reruns of stale watches come to.
#[derive(Debug, Drop)]
pub enum Reruns {
    /// The first of them whose run isn't done needs the value at an address, which the cache doesn't hold.
    Need(Address),
    /// All have run.
    Ran(RunList),
}

/// What the rerun of one watch comes to.
#[derive(Debug, Drop)]
pub enum WatchRun {
    /// It needs the value at an address, which the cache doesn't hold.
    Need(Address),
    /// It is done: the watch's name, and its run.
    Done(Text, Run),
}

/// The run of a watch on the values of a cache.
#[tactic(auto, unfolding(crate::specs::Reruns::watch_rerun))]
pub fn run_watch(
    alloc: Global,
    watch: &StaleWatch<'_>,
    cache: &Cache,
) -> Result<WatchRun, AllocError>
    ensures { IfOk result (λ run. run ≡ watch_rerun (held cache.now) watch.now.name.now watch.now.body.now) }
{
    match run_on(alloc, watch.body, cache)? {
        Step::Need(address) => Ok(WatchRun::Need(address)),
        Step::Done(run) => Ok(WatchRun::Done(Text::from_slice(alloc, watch.name)?, run)),
    }
}
