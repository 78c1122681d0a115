//! A commit compared with its body's run.

ghost use Rattle.std.specs.Bool.{Decides};
ghost use Rattle.std.specs.Prelude.{◌≡◌};
ghost use Rattle.audit_core.specs.code.Running.{Differs};

use crate::verdict::Flaw;
use rdt_types::{DeltaMap, Outcome};
use txn_lang::{Commit, Run};

/// Whether two outcomes are the same.
fn same_outcome(a: &Outcome, b: &Outcome) -> bool
    ensures { Decides result (a.now ≡ b.now) }
{
    a == b
}

/// Whether deltas are the same, at the same addresses.
fn same_deltas(a: &DeltaMap, b: &DeltaMap) -> bool
    ensures { Decides result (a.now ≡ b.now) }
{
    a.as_slice() == b.as_slice()
}

/// What a commit says otherwise than its body's run.
pub(crate) fn difference(commit: &Commit, run: &Run) -> Option<Flaw>
    ensures { Differs commit.now run.now result }
{
    if !same_outcome(&commit.outcome, &run.outcome) {
        return Some(Flaw::Outcome);
    }
    if !same_deltas(&commit.deltas, &run.deltas) {
        return Some(Flaw::Deltas);
    }
    None
}
