//! The body of an append, run anew on the values that were given.

ghost use Rattle.std.specs.Prelude.{◌≡◌};
ghost use Rattle.docc_prepare.specs.Attempts.{based, has_front as spec_has_front};
ghost use Rattle.docc_prepare.specs.Serial.{is_observed};
ghost use Rattle.remote_service.specs.Anew as spec;
ghost use Rattle.remote_service.specs.code.Finds.{Finds, LacksOnly};
ghost use Rattle.remote_service.specs.code.Refusing as exact;

use crate::error::ServiceError;
use crate::kept::{KeptFront, KeptSnap, front_kept, value_kept};
use crate::refusing::found;
use docc_prepare::Attempt;
use journal_core::{FrontList, PreparedFront};
use plain_data::copied;
use rdt_types::{Address, Value, shard_of};
use remote_wire::Base;
use std::alloc::Global;
use txn_eval::{Step, run};
use txn_lang::{Checked, Run, Seen, Snap, Snaps};

// ---- values

/// The value that was given at a named base, unless its address was named before.
fn named_value(kept: &[KeptSnap], snaps: &Snaps, named: &Base) -> Result<Value, ServiceError>
    ensures found { Finds (λ value. value) result (spec.named_value kept.now snaps.now named.now) }

    // Memory is wanting only for a value that is there.
    ensures memory { LacksOnly result (spec.named_value kept.now snaps.now named.now) }
{
    if snaps.get(&named.address).is_some() {
        return Err(ServiceError::Malformed);
    }
    found(value_kept(kept, &named.address, named.base)?)
}

/// The values at the named bases.
pub(crate) fn values_at(
    alloc: Global,
    kept: &[KeptSnap],
    bases: &[Base],
) -> Result<Snaps, ServiceError>
    ensures { Finds (λ snaps. snaps) result (spec.values_at kept.now bases.now) }
{
    let mut snaps = Snaps::new(alloc);
    for named in bases {
        let value = named_value(kept, &snaps, named)?;
        let base = named.base;
        snaps.insert(copied(&named.address)?, Snap { base, value })?;
    }
    Ok(snaps)
}

// ---- the run

/// Whether something was observed at an address.
fn is_seen(seen: &[Seen], address: &Address) -> bool
    ensures { result ≡ is_observed seen.now address.now }
{
    for observed in seen {
        if address.cmp(&observed.address).is_eq() {
            return true;
        }
    }
    false
}

/// Whether each named address was observed.
fn are_observed(bases: &[Base], seen: &[Seen]) -> bool
    ensures { result ≡ spec.are_observed bases.now seen.now }
{
    for named in bases {
        if !is_seen(seen, &named.address) {
            return false;
        }
    }
    true
}

/// A run that is done, and none that needs a value which isn't named.
fn finished(step: Step) -> Result<Run, ServiceError>
    ensures { result ≡ exact.finished step }
{
    match step {
        Step::Need(_address) => Err(ServiceError::Malformed),
        Step::Done(run) => Ok(run),
    }
}

/// A run that observed each address that is named.
fn if_observed(bases: &[Base], run: Run) -> Result<Run, ServiceError>
    ensures { result ≡ exact.if_observed bases.now run }
{
    if are_observed(bases, run.observations.as_slice()) {
        Ok(run)
    } else {
        Err(ServiceError::Malformed)
    }
}

/// The run of a body on the values at the named bases, where it is done and observed just these addresses.
pub(crate) fn run_anew(
    alloc: Global,
    body: &Checked,
    snaps: &Snaps,
    bases: &[Base],
) -> Result<Run, ServiceError>
    ensures { Finds (λ run. run) result (spec.run_anew body.now.body snaps.now bases.now) }
{
    let run = finished(run(alloc, body, snaps)?)?;
    if_observed(bases, run)
}

// ---- fronts

/// Whether a shard has a front.
fn has_front(fronts: &[PreparedFront], shard: u8) -> bool
    ensures { result ≡ spec_has_front fronts.now shard }
{
    for prepared in fronts {
        if prepared.shard == shard {
            return true;
        }
    }
    false
}

/// The front that was given last for what a run observed in a shard.
fn front_of(
    alloc: Global,
    kept: &[KeptFront],
    attempt: &Attempt,
    run: &Run,
    shard: u8,
) -> Result<u64, ServiceError>
    ensures { Finds (λ front. front) result (spec.front_in kept.now attempt.now.shards (based attempt.now.snaps run.now.observations) shard) }
{
    let observed = attempt.based(alloc, run, shard)?;
    found(front_kept(kept, shard, &observed))
}

/// The front of each shard in which a run observed something.
pub(crate) fn fronts_for(
    alloc: Global,
    kept: &[KeptFront],
    attempt: &Attempt,
    run: &Run,
) -> Result<FrontList, ServiceError>
    ensures { Finds (λ fronts. fronts) result (spec.fronts_for kept.now attempt.now.shards attempt.now.snaps run.now.observations) }
{
    let mut fronts = FrontList::new(alloc);
    for seen in run.observations.as_slice() {
        let shard = shard_of(&seen.address, attempt.shards);
        if has_front(fronts.as_slice(), shard) {
            continue;
        }
        let front = front_of(alloc, kept, attempt, run, shard)?;
        fronts.push(PreparedFront { shard, front })?;
    }
    Ok(fronts)
}
