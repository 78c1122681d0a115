//! The witness of a pair.

ghost use Rattle.std.specs.Prelude.{◌≡◌, true, Some, IfOk};
ghost use Rattle.std.specs.Option.{option_copied};
ghost use Rattle.std.specs.List.{list_any};
ghost use Rattle.rdt_types.specs.DeltaMaps.{delta_at};
ghost use Rattle.conflict_table.specs.Clashes.{clash};
ghost use Rattle.abort_witness.specs.Kinds.{IsOfOneKind};
ghost use Rattle.abort_witness.specs.Pairs.{clashes};
ghost use Rattle.journal_core.specs.Changes.{changes_of};
ghost use Rattle.journal_core.specs.Kinds.{HasKinds};
ghost use Rattle.journal_core.specs.Witnesses.{AreBasedOfOneKind, IsHit, IsWitnessOf};

use abort_witness::{Based, Found, Witness, name_delta};
use rdt_types::{Address, Delta};
use std::alloc::AllocError;
use txn_lang::Commit;

/// The delta at an address.
fn delta_in<'a>(deltas: &'a [(Address, Delta)], address: &Address) -> Option<&'a Delta>
    ensures { option_copied result ≡ delta_at deltas.now address.now }
{
    for (changed, delta) in deltas {
        if address.cmp(changed).is_eq() {
            return Some(delta);
        }
    }
    None
}

/// The delta of a commit that clashes with an observation: it is the one at its address.
fn clashing<'a>(based: &Based, commit: &'a Commit) -> &'a Delta
    requires { list_any (clashes based.now) (changes_of commit.now) ≡ true }
    ensures changed { delta_at commit.now.deltas based.now.address ≡ Some result.now }
    ensures clash { clash based.now.obs result.now ≡ true }
{
    delta_in(commit.deltas.as_slice(), &based.address).unwrap()
}

/// The witness of a pair. It costs the deltas of the pair's commit at most.
pub(crate) fn witness_of(
    based: &[Based],
    commits: &[Commit],
    found: &Found,
) -> Result<Witness, AllocError>
    requires hit { IsHit based.now commits.now found.now }
    requires observed { AreBasedOfOneKind based.now }
    requires kinds { HasKinds commits.now }
    ensures names { IfOk result (IsWitnessOf based.now commits.now found.now) }
    ensures kinds { IfOk result IsOfOneKind }
{
    let observation = &based[found.place as usize];
    let commit = &commits[found.number as usize - 1];
    name_delta(observation, clashing(observation, commit), found.number)
}
