//! What ends a hold.

ghost use Rattle.std.specs.Prelude.{◌≡◌, ◌+◌, nat_lt, filter};
ghost use Rattle.std.specs.Vec.{vec_capacity};
ghost use Rattle.journal_core.specs.declared.limits.TheConstants.{HOLD_LASTS};
ghost use Rattle.journal_core.specs.Holds as spec;

use crate::watched::Watched;
use conflict_table::Steps;
use journal_core::HOLD_LASTS;
use std::marker::Brand;
use std::sync::ledger::{Blank, Ledger};
use txn_lang::Commit;

/// Whether a commit disturbs a hold. The steps are counted from the blank, and by nobody else.
fn disturbed<L: Ledger>(blank: Blank, commit: &Commit, hold: &Watched) -> bool
    requires name { blank.name ≡ L.name }
    requires parts { blank.parts ≡ L.parts }
    requires one { blank.parts ≡ 1 }
    ensures { result ≡ spec.disturbs_some commit.now.deltas hold.now.observations }
{
    let mut steps = Steps::<L>::new(blank);
    hold.is_disturbed(&commit.deltas, &mut steps)
}

/// Whether a hold is still young enough behind a commit.
fn is_young(number: u64, hold: &Watched) -> bool
    ensures { result ≡ nat_lt number (hold.now.number + HOLD_LASTS) }
{
    number.saturating_sub(hold.number()) < HOLD_LASTS
}

/// Whether a hold is live still behind a further commit.
fn outlasts(commit: &Commit, hold: &Watched) -> bool
    ensures { result ≡ spec.outlasts commit.now hold.now }
{
    is_young(commit.number, hold)
        && hold.client() != commit.client
        && !disturbed::<Brand>(Blank::new(1), commit, hold)
}

/// Takes out the holds that a commit ends.
pub(crate) fn end_by(holds: &mut Vec<Watched>, commit: &Commit)
    ensures rest { holds.new.items ≡ filter (spec.outlasts commit.now) holds.old.items }
    ensures capacity { vec_capacity holds.new ≡ vec_capacity holds.old }
{
    holds.retain(|hold| outlasts(commit, hold));
}
