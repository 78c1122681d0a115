//! Commits are kept in a file.

ghost use Rattle.std.specs.Prelude.{◌≡◌, ◌+◌, ◌<◌, ◌^◌, None, Some, IfSome, OnOk, OnErr, is_err};
ghost use Rattle.dio_core.specs.Counts.{IsCounted};
ghost use Rattle.txn_lang.specs.States.{Journal};
ghost use Rattle.txn_lang.specs.declared.commit.Commit.{Commit as OfCommit};
ghost use Rattle.journal_core.specs.Keeping.{CanKeep, Keeps, StandsFor};
ghost use Rattle.journal_file.specs.Keepers.{Holds, IsCoded, told_by, doubted_by, DoubtsOneOf, KeepsThese, ReadsAs, LeavesAs, MendsSafe, KeepsSafe};

use crate::coded::coded;
use commit_file::FileKeeper;
use dio_core::Disk;
use journal_core::{Keep, KeepFault};
use plain_data::Text;
use std::alloc::{AllocError, Global};
use std::marker::Model;
use txn_lang::Commit;

/// Keeps commits in a file on a disk.
#[derive(Drop)]
pub struct CommitKeeper<'a, D: Disk> {
    file: FileKeeper<'a, D>,
}

impl<'a, D: Disk> Model for CommitKeeper<'a, D> {
    ghost use Rattle.commit_file.specs.Keepers.{Keeper, keeper_code};
    ghost use Rattle.journal_file.specs.Keepers.{IsOfCommits};

    ghost Value = { Keeper };

    ghost coded = { keeper_code };

    ghost view = { λ k. k.file };

    ghost invariant = { λ k. IsOfCommits k.file };
}

impl<'a, D: Disk> CommitKeeper<'a, D> {
    /// A keeper in a file whose commits end there, as recovery leaves it.
    pub fn new(disk: &'a mut D, end: u64) -> CommitKeeper<'a, D>
        requires holds { (journal : Journal) × IfSome (D.state disk.old) (Holds journal end) }
        requires room { end + 1 < 2 ^ 64 }
        ensures keeps { (journal : Journal) → IfSome (D.state disk.old) (Holds journal end)
            → KeepsThese journal result }
        ensures none_doubted { doubted_by result ≡ None }
        ensures state { result.state ≡ D.state disk.old }
        ensures past { result.past ≡ D.past disk.old }
        ensures faults { result.faults ≡ D.disk_faults disk.old }
        ensures home { result.home ≡ disk.entry.ghost_name }
    {
        CommitKeeper {
            file: FileKeeper::new(disk, end),
        }
    }

    /// Says how the file stands between two calls. It does nothing.
    pub fn stands(&self)
        // The file as it reads is kept as the commits, or as these and the doubtful one.
        ensures reads { (journal : Journal) → KeepsThese journal self.now
            → ReadsAs journal (doubted_by self.now) self.now.state }

        // A crash leaves nothing else.
        ensures leaves { (journal : Journal) → KeepsThese journal self.now
            → LeavesAs journal (doubted_by self.now) self.now.state }
    {
        self.file.stands();
    }

    /// Mends what failed, if anything did: no commit is doubtful then.
    pub fn mend(&mut self) -> Result<(), KeepFault>
        ensures ok { OnOk result (doubted_by self.new ≡ None) }
        ensures err { OnErr result (doubted_by self.new ≡ doubted_by self.old) }
        ensures kept { told_by self.new ≡ told_by self.old }

        // A crash at any moment leaves the commits, or these and the doubtful one.
        ensures any_moment { (journal : Journal) → KeepsThese journal self.old
            → IfSome self.old.state (λ s. MendsSafe journal self.old self.new) }
        ensures counted { IsCounted (is_err result) self.old.faults self.new.faults }
        ensures home { self.new.home ≡ self.old.home }
    {
        match self.file.mend() {
            Ok(()) => Ok(()),
            Err(_) => Err(KeepFault),
        }
    }

    /// Gives the disk back.
    pub fn release(self) -> &'a mut D
        ensures same_reference { result.ghost_name ≡ self.entry.home }
        ensures state { D.state result.now ≡ self.entry.state }
        ensures reads { (journal : Journal) → KeepsThese journal self.entry
            → ReadsAs journal (doubted_by self.entry) (D.state result.now) }
        ensures leaves { (journal : Journal) → KeepsThese journal self.entry
            → LeavesAs journal (doubted_by self.entry) (D.state result.now) }
        ensures past { D.past result.now ≡ self.entry.past }
        ensures faults { D.disk_faults result.now ≡ self.entry.faults }
    {
        self.stands();
        let CommitKeeper { file } = self;
        file.release()
    }
}

impl<'a, D: Disk> Keep for CommitKeeper<'a, D> {
    ghost use Rattle.std.specs.Prelude.{true};

    ghost kept = { told_by };

    ghost keep_faults = { λ k. k.faults };

    ghost home = { λ k. k.home };

    ghost may_fail = { true };

    ghost stands_for = { IsCoded };

    fn make(&self, alloc: Global, commit: &Commit) -> Result<Text, AllocError> {
        coded(alloc, commit)
    }

    fn keep(&mut self, bytes: &Text) -> Result<(), KeepFault>
        requires { CanKeep IsCoded (told_by self.old) bytes.now }
        ensures ok { OnOk result (Keeps IsCoded bytes.now (told_by self.old) (told_by self.new)) }
        ensures err { OnErr result (told_by self.new ≡ told_by self.old) }
        ensures none_doubted { OnOk result (doubted_by self.new ≡ None) }
        ensures doubt { OnErr result ((commit : OfCommit) → StandsFor IsCoded (told_by self.old) bytes.now commit
            → DoubtsOneOf commit self.old self.new) }

        // A crash leaves what it might have left before, up to some moment, and then the commits, or these and this.
        ensures any_moment { (journal : Journal) (commit : OfCommit) → KeepsThese journal self.old
            → StandsFor IsCoded (Some journal) bytes.now commit
            → IfSome self.old.state (λ s. KeepsSafe journal commit self.old self.new) }
        ensures counted { IsCounted (is_err result) self.old.faults self.new.faults }
        ensures home { self.new.home ≡ self.old.home }

        // As the trait asks of a keeper that may fail: this one may, and `counted` says when.
        ensures may_fail { OnErr result (true ≡ true) }
    {
        match self.file.keep(bytes.as_slice()) {
            Ok(()) => Ok(()),
            Err(_) => Err(KeepFault),
        }
    }

    fn keep_faults(&self) -> u64 {
        self.file.faults()
    }
}
