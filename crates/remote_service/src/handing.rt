//! What is handed on of an append.

ghost use Rattle.std.specs.Prelude.{◌≡◌, ◌≤◌, IfOk};
ghost use Rattle.rdt_types.specs.declared.limits.TheConstants.{LEAST_SHARDS, MOST_SHARDS};
ghost use Rattle.txn_lang.specs.Execution.{done, exec};
ghost use Rattle.txn_eval.specs.Running.{values_of};
ghost use Rattle.remote_service.specs.Anew as spec;
ghost use Rattle.remote_service.specs.code.Finds.{Finds};

use crate::anew::{fronts_for, run_anew, values_at};
use crate::body::body_of;
use crate::error::ServiceError;
use crate::kept::{KeptFront, KeptSnap};
use crate::service::Service;
use docc_prepare::Attempt;
use journal_core::Ready;
use plain_data::Text;
use remote_wire::Base;
use std::alloc::Global;
use txn_lang::{Checked, Run, Snaps};

/// Whose commit it is, and of how many shards the store is.
#[derive(Clone, Copy)]
pub(crate) struct Whose {
    pub client: u32,
    pub shards: u8,
}

/// A body that was run anew, with the values that it was run on, and its run.
#[derive(Drop)]
struct RunAnew {
    body: Checked,
    snaps: Snaps,
    run: Run,
}

/// Runs a body anew on the values at the named bases.
fn ran_anew(
    alloc: Global,
    kept: &[KeptSnap],
    text: &Text,
    bases: &[Base],
) -> Result<RunAnew, ServiceError>
    ensures found { Finds (λ r. (r.snaps, r.run)) result (spec.ran_anew kept.now text.now bases.now) }
    ensures source { IfOk result (λ r. r.body.source ≡ text.now) }
    ensures runs { IfOk result (λ r. exec r.body.body (values_of r.snaps) ≡ done r.run) }
{
    let body = body_of(alloc, text)?;
    let snaps = values_at(alloc, kept, bases)?;
    let run = run_anew(alloc, &body, &snaps, bases)?;
    Ok(RunAnew { body, snaps, run })
}

impl Service {
    /// What is handed on of a run, with the fronts of its shards.
    fn handed_on(&self, alloc: Global, whose: Whose, ran: RunAnew) -> Result<Ready, ServiceError>
        requires shards { (LEAST_SHARDS ≤ whose.shards) × (whose.shards ≤ MOST_SHARDS) }
        requires runs { exec ran.body.body (values_of ran.snaps) ≡ done ran.run }
        ensures { Finds (λ ready. ready) result (spec.handed_on self.now whose.client whose.shards ran.body.source (ran.snaps, ran.run)) }
    {
        let mut attempt = Attempt::begin(alloc, ran.body, whose.shards);
        attempt.snaps = ran.snaps;
        attempt.fronts = fronts_for(alloc, self.fronts.as_slice(), &attempt, &ran.run)?;
        Ok(attempt.ready(alloc, ran.run, whose.client, self.seq)?)
    }

    /// What is handed on of an append that names a body's text and bases.
    pub(crate) fn made_anew(
        &self,
        alloc: Global,
        whose: Whose,
        text: &Text,
        bases: &[Base],
    ) -> Result<Ready, ServiceError>
        requires { (LEAST_SHARDS ≤ whose.shards) × (whose.shards ≤ MOST_SHARDS) }
        ensures { Finds (λ ready. ready) result (spec.made_anew self.now whose.client whose.shards text.now bases.now) }
    {
        let ran = ran_anew(alloc, self.snaps.as_slice(), text, bases)?;
        self.handed_on(alloc, whose, ran)
    }
}
