//! Payloads are kept in a file.

ghost use Rattle.std.specs.Prelude.{◌≡◌, ◌+◌, ◌<◌, ◌^◌, true, false, ℕ, List, length, IfSome, OnOk, OnErr, is_err};
ghost use Rattle.dio_core.specs.Counts.{IsCounted};
ghost use Rattle.dio_core.specs.Told.{WhereTold};
ghost use Rattle.commit_file.specs.Kept.{Meaning};
ghost use Rattle.commit_file.specs.Through.{PassesAmong};
ghost use Rattle.commit_file.specs.Keepers.{Stands, MayHold, Mends, mend_moments, IsJournal, IsSpelled, IsSpelling, MayFollow, MayHoldNext, held_of, doubt_of, doubtful_by, Keeps, Doubts, IsSound, Throughout, KeepsSafe, IsSure};

use crate::gate::{CLOSED, OPEN, Outcome, set_gate};
use crate::through::write_through;
use dio_core::{Disk, DiskFault};
use std::marker::Model;

/// What has to be mended before the next payload.
#[derive(Clone, Copy, Debug, PartialEq, Eq)]
enum Trouble {
    None,
    /// A write behind the gate failed.
    Behind,
    /// The gate may be open.
    AtGate,
}

/// Keeps payloads in a file on a disk.
#[derive(Drop)]
pub struct FileKeeper<'a, D: Disk> {
    disk: &'a mut D,
    end: u64,
    trouble: Trouble,
}

impl<'a, D: Disk> Model for FileKeeper<'a, D> {
    ghost use Rattle.std.specs.Prelude.{◌+◌, ◌<◌, ◌^◌, IfSome};
    ghost use Rattle.commit_file.specs.Keepers.{Keeper, keeper_code, Stands, is_doubtful, is_unsound};

    ghost Value = { Keeper };

    ghost coded = { keeper_code };

    ghost view = { λ k. record {
      state = D.state k.disk.now;
      past = D.past k.disk.now;
      faults = D.disk_faults k.disk.now;
      home = k.disk.ghost_name;
      end = k.end;
      doubtful = is_doubtful k.trouble;
      unsound = is_unsound k.trouble;
    } };

    ghost invariant = { λ k. IfSome (D.state k.disk.now) (Stands (is_doubtful k.trouble) k.end) × (k.end + 1 < 2 ^ 64) };
}

/// A call of the disk failed, which the disk has counted.
#[derive(Clone, Copy, Debug, PartialEq, Eq)]
pub struct KeepFault;

impl From<DiskFault> for KeepFault {
    ghost from_gives = { λ _ _. Unit {0} };

    fn from(_: DiskFault) -> KeepFault {
        KeepFault
    }
}

/// Mends what failed.
fn mend_at<D: Disk>(disk: &mut D, end: u64, trouble: Trouble) -> Result<(), DiskFault>
    ensures mends { WhereTold (Mends result trouble end) (D.state disk.old) (D.state disk.new) }
    ensures moments { IfSome (D.state disk.old) (λ s. PassesAmong (mend_moments trouble end s)
        (D.past disk.old) (D.past disk.new) (D.state disk.new)) }
    ensures counted { IsCounted (is_err result) (D.disk_faults disk.old) (D.disk_faults disk.new) }
{
    match trouble {
        Trouble::None => Ok(()),
        Trouble::Behind => disk.sync(),
        Trouble::AtGate => write_through(disk, end, &[CLOSED]),
    }
}

impl<'a, D: Disk> FileKeeper<'a, D> {
    /// A keeper in a file that ends there, as recovery leaves it.
    pub fn new(disk: &'a mut D, end: u64) -> FileKeeper<'a, D>
        requires stands { IfSome (D.state disk.old) (Stands false end) }
        requires room { end + 1 < 2 ^ 64 }
        ensures state { result.state ≡ D.state disk.old }
        ensures past { result.past ≡ D.past disk.old }
        ensures faults { result.faults ≡ D.disk_faults disk.old }
        ensures home { result.home ≡ disk.entry.ghost_name }
        ensures end { result.end ≡ end }
        ensures sound { IsSound result }
    {
        FileKeeper {
            disk,
            end,
            trouble: Trouble::None,
        }
    }

    /// How many calls of the disk have failed.
    pub fn faults(&self) -> u64
        ensures { result ≡ self.now.faults }
    {
        self.disk.disk_faults()
    }

    /// Keeps the payload of these bytes, where nothing has to be mended.
    fn keep_next(&mut self, bytes: &[u8]) -> Result<(), KeepFault>
        requires sound { IsSound self.old }
        requires next { IsSpelling bytes.now }
        ensures ok { OnOk result (Keeps bytes.now self.old self.new) }
        ensures err { OnErr result (held_of self.new ≡ held_of self.old) }
        ensures doubt { OnErr result ((p : List ℕ) → IsSpelled bytes.now p → self.new.doubtful ≡ true
            → IfSome self.new.state (λ u. doubtful_by self.new.end u ≡ p)) }
        ensures any_moment { (m : Meaning) (p : List ℕ) → IsSpelled bytes.now p
            → Throughout (MayFollow m self.old p) (MayHoldNext m self.old p) self.old self.new }
        ensures home { self.new.home ≡ self.old.home }
        ensures counted { IsCounted (is_err result) self.old.faults self.new.faults }
    {
        match set_gate(self.disk, OPEN, self.end, bytes) {
            Outcome::Done => {
                self.end += bytes.len() as u64;
                Ok(())
            }
            Outcome::Behind => {
                self.trouble = Trouble::Behind;
                Err(KeepFault)
            }
            Outcome::AtGate => {
                self.trouble = Trouble::AtGate;
                Err(KeepFault)
            }
        }
    }

    /// Mends what failed, if anything did: no payload is doubtful then.
    pub fn mend(&mut self) -> Result<(), KeepFault>
        ensures ok { OnOk result (IsSound self.new) }
        ensures err { OnErr result ((self.new.doubtful ≡ self.old.doubtful) × (self.new.unsound ≡ self.old.unsound)
            × (doubt_of self.new ≡ doubt_of self.old)) }
        ensures kept { held_of self.new ≡ held_of self.old }

        // A crash at any moment leaves the payloads, or these and the doubtful one.
        ensures any_moment { (m : Meaning) → Throughout (IsJournal m self.old) (MayHold m self.old) self.old self.new }
        ensures end { self.new.end ≡ self.old.end }
        ensures home { self.new.home ≡ self.old.home }
        ensures counted { IsCounted (is_err result) self.old.faults self.new.faults }
    {
        mend_at(self.disk, self.end, self.trouble)?;
        self.trouble = Trouble::None;
        Ok(())
    }

    /// Keeps the payload of these bytes, behind those that are kept. What failed before is mended first. It takes no
    /// memory.
    pub fn keep(&mut self, bytes: &[u8]) -> Result<(), KeepFault>
        requires next { IsSpelling bytes.now }
        ensures ok { OnOk result (Keeps bytes.now self.old self.new) }
        ensures err { OnErr result (held_of self.new ≡ held_of self.old) }
        ensures doubt { OnErr result (Doubts bytes.now self.old self.new) }

        // A crash leaves what it might have left before, up to some moment, and then the payloads, or these and this one.
        ensures any_moment { (m : Meaning) (p : List ℕ) → IsSpelled bytes.now p → KeepsSafe m p self.old self.new }
        ensures home { self.new.home ≡ self.old.home }
        ensures counted { IsCounted (is_err result) self.old.faults self.new.faults }
    {
        self.mend()?;
        self.keep_next(bytes)
    }

    /// Says how the file stands between two calls: each image that a crash may leave, and the file as it reads, is kept as
    /// the payloads, or as these and the doubtful one. It does nothing.
    pub fn stands(&self)
        ensures { (m : Meaning) → IsSure m self.now }
    {
        let _trouble = &self.trouble;
    }

    /// Gives the disk back.
    pub fn release(self) -> &'a mut D
        ensures same_reference { result.ghost_name ≡ self.entry.home }
        ensures state { D.state result.now ≡ self.entry.state }
        ensures past { D.past result.now ≡ self.entry.past }
        ensures faults { D.disk_faults result.now ≡ self.entry.faults }
    {
        let FileKeeper { disk, .. } = self;
        disk
    }
}
