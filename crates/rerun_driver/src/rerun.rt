//! Runs on the values of a cache.

ghost use Rattle.std.specs.Prelude.{◌≡◌, OnOk, IfOk};
ghost use Rattle.client_cache.specs.Cached.{Cached, held};
ghost use Rattle.txn_trees.specs.declared.statement.Body.{Body};
ghost use Rattle.txn_lang.specs.Execution.{exec};
ghost use Rattle.txn_eval.specs.Running.{ran_of};
ghost use Rattle.rerun_driver.specs.BegunRuns.{IsBegun, begun_at, with_taken};
ghost use Rattle.rerun_driver.specs.Watches.{rerun_of};

use client_cache::Cache;
use plain_data::{Text, copied};
use rdt_types::{Address, Value};
use std::alloc::{AllocError, Global};
use txn_eval::{Pause, Step, go_on};
use txn_lang::{Checked, Run, Snap, Snaps, TICK_LIMIT};

/// What the next rerun comes to.
#[derive(Debug, Drop)]
pub enum Rerun {
    /// It needs the value at an address, which the cache doesn't hold.
    Need(Address),
    /// The first stale watch has run: its name, and its run.
    Ran(Text, Run),
    /// No watch is stale.
    NoneLeft,
}

/// A run on values of a cache that may go on: what it has taken from there so far, and where it has paused.
#[derive(Drop)]
pub struct Begun {
    snaps: Snaps,
    pause: Pause,
}

impl Begun {
    /// A run before its first statement, which has taken nothing. It is never refused for want of memory.
    pub fn new(alloc: Global) -> Begun
        ensures { (body : Body) (cache : Cached) → IsBegun body cache result }
    {
        Begun {
            snaps: Snaps::new(alloc),
            pause: Pause::begun(alloc),
        }
    }
}

/// Takes a copy of a value among those that a run rests on.
fn take_value(
    snaps: &mut Snaps,
    address: Address,
    base: u64,
    value: &Value,
) -> Result<(), AllocError>
    ensures { OnOk result (snaps.new ≡ with_taken snaps.old address base value.now) }
{
    let value = copied(value)?;
    snaps.insert(address, Snap { base, value })?;
    Ok(())
}

/// Goes on with the run of a body from a pause, on values that were taken from a cache. What else it needs is taken from there,
/// until it is done or needs what isn't held.
fn run_taking(
    alloc: Global,
    body: &Checked,
    cache: &Cache,
    snaps: &mut Snaps,
    pause: &mut Pause,
) -> Result<Step, AllocError>
    requires { IsBegun body.now.body cache.now (begun_at snaps.old pause.old) }
    ensures ran { IfOk result (λ step. ran_of step ≡ exec body.now.body (held cache.now)) }
    ensures begun { IfOk result (λ _. IsBegun body.now.body cache.now (begun_at snaps.new pause.new)) }
{
    for _ in 0..TICK_LIMIT + 1 {
        match go_on(alloc, body, snaps, pause)? {
            Step::Done(run) => return Ok(Step::Done(run)),
            Step::Need(address) => match cache.get(&address) {
                None => return Ok(Step::Need(address)),
                Some(value) => take_value(snaps, address, cache.at(), value)?,
            },
        }
    }
    // A run needs no more values than it has ticks.
    unreachable!()
}

/// Goes on with the run of a body on the values of a cache, which may be more than those on which it has begun. Where it needs
/// what isn't held it may go on again, once that is held.
pub fn run_from(
    alloc: Global,
    body: &Checked,
    cache: &Cache,
    begun: &mut Begun,
) -> Result<Step, AllocError>
    requires { IsBegun body.now.body cache.now begun.old }
    ensures ran { IfOk result (λ step. ran_of step ≡ exec body.now.body (held cache.now)) }
    ensures begun { IfOk result (λ step. IsBegun body.now.body cache.now begun.new) }
{
    run_taking(alloc, body, cache, &mut begun.snaps, &mut begun.pause)
}

/// Runs a body on the values of a cache. What it needs is taken from there, until it is done or needs what isn't held.
pub fn run_on(alloc: Global, body: &Checked, cache: &Cache) -> Result<Step, AllocError>
    ensures { IfOk result (λ step. ran_of step ≡ exec body.now.body (held cache.now)) }
{
    run_from(alloc, body, cache, &mut Begun::new(alloc))
}

/// The run of a watch, by its name and its body, on the values of a cache.
pub(crate) fn run_watch(
    alloc: Global,
    name: &[u8],
    body: &Checked,
    cache: &Cache,
) -> Result<Rerun, AllocError>
    ensures { IfOk result (λ next. next ≡ rerun_of name.now (exec body.now.body (held cache.now))) }
{
    match run_on(alloc, body, cache)? {
        Step::Need(address) => Ok(Rerun::Need(address)),
        Step::Done(run) => Ok(Rerun::Ran(Text::from_slice(alloc, name)?, run)),
    }
}
