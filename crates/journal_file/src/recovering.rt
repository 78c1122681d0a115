//! The commits that a file is kept as.

ghost use Rattle.std.specs.Prelude.{◌≡◌, ◌≢◌, ◌+◌, ◌<◌, ◌^◌, All, [], length, IfOk, IfErr, IfSome};
ghost use Rattle.std.specs.List.{AllByRecursion};
ghost use Rattle.std.specs.List.Sorted.{IsStrictlySortedBy};
ghost use Rattle.std.specs.Map.{keys_of};
ghost use Rattle.dio_core.specs.Counts.{IsCounted};
ghost use Rattle.dio_core.specs.Disks.{NothingPending};
ghost use Rattle.dio_core.specs.Moments.{AtAnyMoment};
ghost use Rattle.rdt_types.specs.Addresses.{address_cmp};
ghost use Rattle.commit_file.specs.declared.recover_error.RecoverError.TheVariants as error;
ghost use Rattle.commit_file.specs.Kept.{kept, KeptAlike};
ghost use Rattle.commit_file.specs.Recovering.{IsRefused, disk_failed};
ghost use Rattle.txn_lang.specs.Journals.{IsLegal};
ghost use Rattle.journal_core.specs.declared.limits.TheConstants.{FIRST_UNTOLD_CLIENT};
ghost use Rattle.journal_core.specs.Kinds.{HasKinds};
ghost use Rattle.journal_core.specs.Pairs.{AreNumbered};
ghost use Rattle.journal_file.specs.Commits.{CommitsFollow, IsKeptAs};
ghost use Rattle.journal_file.specs.Keepers.{Holds};

use crate::chain::CommitChain;
use crate::taker::CommitTaker;
use commit_file::RecoverError;
use dio_core::Disk;
use std::alloc::Global;
use txn_lang::CommitList;

/// The commits that a file is kept as, and where they end.
#[derive(Debug, Drop)]
pub struct Recovered {
    pub commits: CommitList,
    /// Where a keeper goes on.
    pub end: u64,
}

/// Hands the commits that the file on a disk is kept as to a taker, one behind another, and gives it back. The disk stays as it is.
pub fn hand_kept<D: Disk, T: CommitTaker + Drop>(
    alloc: Global,
    disk: &mut D,
    taker: T,
) -> Result<T, RecoverError>
    requires { T.commits taker ≡ [] }
    ensures kept { IfOk result (λ t. IfSome (D.state disk.old) (λ s. IsKeptAs (T.commits t) s.file)) }
    ensures refused { IfErr result (λ e. IfSome (D.state disk.old) (λ s. IsRefused (kept CommitsFollow s.file) e)) }

    // Each commit has the next number and the next seq of its client. That it is what its body does is taken on trust.
    ensures legal { IfOk result (λ t. IsLegal (length (T.commits t)) (T.commits t)) }
    ensures numbered { IfOk result (λ t. AreNumbered (T.commits t)) }
    ensures kinds { IfOk result (λ t. HasKinds (T.commits t)) }
    ensures rising { IfOk result (λ t. AllByRecursion (λ commit. IsStrictlySortedBy address_cmp (keys_of commit.deltas)) (T.commits t)) }
    ensures clients { IfOk result (λ t. All (λ commit. commit.client < FIRST_UNTOLD_CLIENT) (T.commits t)) }

    ensures same { D.state disk.new ≡ D.state disk.old }
    ensures past { D.past disk.new ≡ D.past disk.old }
    ensures counted { IsCounted (disk_failed result) (D.disk_faults disk.old) (D.disk_faults disk.new) }
{
    let mut chain = CommitChain::new(alloc, taker);
    commit_file::read_kept(alloc, disk, &mut chain)?;
    Ok(chain.into_taker())
}

/// The commits that the file on a disk is kept as. The disk stays as it is.
pub fn read_kept<D: Disk>(alloc: Global, disk: &mut D) -> Result<CommitList, RecoverError>
    ensures kept { IfOk result (λ commits. IfSome (D.state disk.old) (λ s. IsKeptAs commits s.file)) }
    ensures refused { IfErr result (λ e. IfSome (D.state disk.old) (λ s. IsRefused (kept CommitsFollow s.file) e)) }

    // Each commit has the next number and the next seq of its client. That it is what its body does is taken on trust.
    ensures legal { IfOk result (λ commits. IsLegal (length commits) commits) }
    ensures numbered { IfOk result AreNumbered }
    ensures kinds { IfOk result HasKinds }
    ensures rising { IfOk result (AllByRecursion (λ commit. IsStrictlySortedBy address_cmp (keys_of commit.deltas))) }
    ensures clients { IfOk result (All (λ commit. commit.client < FIRST_UNTOLD_CLIENT)) }

    ensures same { D.state disk.new ≡ D.state disk.old }
    ensures past { D.past disk.new ≡ D.past disk.old }
    ensures counted { IsCounted (disk_failed result) (D.disk_faults disk.old) (D.disk_faults disk.new) }
{
    hand_kept(alloc, disk, CommitList::new(alloc))
}

/// The commits that the file on a disk is kept as. It brings the file's end to rest, and a keeper goes on behind that. A
/// crash may come meanwhile as well, and the disk may fail.
pub fn recover<D: Disk>(alloc: Global, disk: &mut D) -> Result<Recovered, RecoverError>
    // After a restart a crash leaves the file as it reads.
    requires { NothingPending (D.state disk.old) }

    ensures kept { IfOk result (λ r. IfSome (D.state disk.old) (λ s. IsKeptAs r.commits s.file)) }
    ensures refused { IfErr result (λ e. IfSome (D.state disk.old) (λ s. IsRefused (kept CommitsFollow s.file) e)) }

    // Each commit has the next number and the next seq of its client. That it is what its body does is taken on trust.
    ensures legal { IfOk result (λ r. IsLegal (length r.commits) r.commits) }
    ensures numbered { IfOk result (λ r. AreNumbered r.commits) }
    ensures kinds { IfOk result (λ r. HasKinds r.commits) }
    ensures rising { IfOk result (λ r.
        AllByRecursion (λ commit. IsStrictlySortedBy address_cmp (keys_of commit.deltas)) r.commits) }
    ensures clients { IfOk result (λ r. All (λ commit. commit.client < FIRST_UNTOLD_CLIENT) r.commits) }

    // A keeper goes on there.
    ensures holds { IfOk result (λ r. IfSome (D.state disk.new) (Holds r.commits r.end)) }
    ensures room { IfOk result (λ r. r.end + 1 < 2 ^ 64) }

    // Unless the disk failed, a file that isn't recovered was not touched.
    ensures untouched { IfErr result (λ e. e ≢ error.DiskFault → D.state disk.new ≡ D.state disk.old) }
    ensures no_moment { IfErr result (λ e. e ≢ error.DiskFault → D.past disk.new ≡ D.past disk.old) }

    // A crash at any moment leaves a file that is kept as this one.
    ensures any_moment { IfSome (D.state disk.old) (λ s.
        AtAnyMoment (KeptAlike CommitsFollow s.file) (D.past disk.old) (D.past disk.new) (D.state disk.new)) }
    ensures counted { IsCounted (disk_failed result) (D.disk_faults disk.old) (D.disk_faults disk.new) }
{
    let mut chain = CommitChain::new(alloc, CommitList::new(alloc));
    let end = commit_file::recover(alloc, disk, &mut chain)?;
    Ok(Recovered {
        commits: chain.into_taker(),
        end,
    })
}
