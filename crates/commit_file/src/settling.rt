//! The end of a file is brought to rest.

ghost use Rattle.std.specs.Prelude.{◌≡◌, ◌≤◌, ◌<◌, ◌+◌, ◌^◌, ◌++◌, ◌∷◌, [], ℕ, List, Bool, true, length, take, drop, IfOk, IfSome, OnOk, is_err};
ghost use Rattle.dio_core.specs.Counts.{IsCounted};
ghost use Rattle.dio_core.specs.Disks.{Reads, NothingPending};
ghost use Rattle.dio_core.specs.Moments.{AtAnyMoment};
ghost use Rattle.dio_core.specs.Told.{WhereTold};
ghost use Rattle.commit_file.specs.Files.{file};
ghost use Rattle.commit_file.specs.Files.Contents.{Current};
ghost use Rattle.commit_file.specs.Kept.{Meaning, KeptAs};
ghost use Rattle.commit_file.specs.Recovering.{IsFound, IsAtRest, HasForm, OpensNone};
ghost use Rattle.commit_file.specs.Through.{resting, Rests};

use crate::gate::{CLOSED, MARK, Outcome, set_gate};
use crate::recovering::Found;
use crate::replace::replace_end;
use dio_core::{Disk, DiskFault};

/// The length of the file of no payload. No file that isn't longer holds any.
pub(crate) const SHORTEST: usize = 13;

/// The file of no payload.
const EMPTY: [u8; SHORTEST] = *b"DIAMONDJ\0\0\0\x02\0";

/// Makes a file anew that is no longer than that of no payload.
fn make_anew<D: Disk>(disk: &mut D, bytes: &[u8]) -> Result<(), DiskFault>
    requires reads { Reads bytes.now (D.state disk.old) }
    requires pending { NothingPending (D.state disk.old) }
    requires short { length bytes.now ≤ 13 }
    ensures at_rest { OnOk result (IfSome (D.state disk.new) (λ s. s ≡ resting (file (Current [])))) }
    ensures any_moment { (m : Meaning) → IfSome (D.state disk.old) (λ s.
        AtAnyMoment (KeptAs m []) (D.past disk.old) (D.past disk.new) (D.state disk.new)) }
    ensures counted { IsCounted (is_err result) (D.disk_faults disk.old) (D.disk_faults disk.new) }
{
    if bytes == EMPTY.as_slice() {
        return Ok(());
    }
    replace_end(disk, 0, EMPTY.as_slice())
}

/// Closes a file behind its last frame.
fn mend_end<D: Disk>(disk: &mut D, bytes: &[u8], end: u64) -> Result<(), DiskFault>
    requires reads { Reads bytes.now (D.state disk.old) }
    requires pending { NothingPending (D.state disk.old) }
    requires within { end ≤ length bytes.now }
    ensures at_rest { OnOk result (WhereTold (Rests (take end bytes.now ++ 0 ∷ [])) (D.state disk.old) (D.state disk.new)) }
    ensures any_moment { (m : Meaning) (ps : List (List ℕ)) (unmarked : Bool)
        → HasForm m unmarked (take end bytes.now) ps → OpensNone unmarked (drop end bytes.now)
        → IfSome (D.state disk.old) (λ s.
        AtAnyMoment (KeptAs m ps) (D.past disk.old) (D.past disk.new) (D.state disk.new)) }
    ensures counted { IsCounted (is_err result) (D.disk_faults disk.old) (D.disk_faults disk.new) }
{
    let (_, behind) = bytes.split_at(end as usize);
    if let [CLOSED] = behind {
        return Ok(());
    }
    replace_end(disk, end, &[CLOSED])
}

/// Puts a mark in the place of the closed gate at the end of a file of version 1, and a closed gate behind it.
fn put_mark<D: Disk>(disk: &mut D, bytes: &[u8], end: u64) -> Result<(), DiskFault>
    requires within { end ≤ length bytes.now }
    requires closed { IfSome (D.state disk.old) (λ s. s ≡ resting (take end bytes.now ++ 0 ∷ [])) }
    ensures fits { OnOk result (end + 2 < 2 ^ 64) }
    ensures at_rest { OnOk result (WhereTold (Rests (take end bytes.now ++ 2 ∷ 0 ∷ [])) (D.state disk.old) (D.state disk.new)) }
    ensures any_moment { (m : Meaning) (ps : List (List ℕ)) → HasForm m true (take end bytes.now) ps
        → IfSome (D.state disk.old) (λ s.
        AtAnyMoment (KeptAs m ps) (D.past disk.old) (D.past disk.new) (D.state disk.new)) }
    ensures counted { IsCounted (is_err result) (D.disk_faults disk.old) (D.disk_faults disk.new) }
{
    match set_gate(disk, MARK, end, &[CLOSED]) {
        Outcome::Done => Ok(()),
        Outcome::Behind | Outcome::AtGate => Err(DiskFault),
    }
}

/// Brings a file to rest that is longer than that of no payload, and answers where it ends.
fn settle_long<D: Disk>(disk: &mut D, bytes: &[u8], found: Found) -> Result<u64, DiskFault>
    requires reads { Reads bytes.now (D.state disk.old) }
    requires pending { NothingPending (D.state disk.old) }
    requires long { 13 < length bytes.now }
    requires within { found.end ≤ length bytes.now }
    ensures at_rest { IfOk result (λ end. (m : Meaning) (ps : List (List ℕ))
        → IsFound m bytes.now ps found.end found.unmarked → IfSome (D.state disk.new) (IsAtRest m ps end)) }
    ensures room { IfOk result (λ end. end + 1 < 2 ^ 64) }
    ensures any_moment { (m : Meaning) (ps : List (List ℕ)) → IsFound m bytes.now ps found.end found.unmarked
        → IfSome (D.state disk.old) (λ s.
        AtAnyMoment (KeptAs m ps) (D.past disk.old) (D.past disk.new) (D.state disk.new)) }
    ensures counted { IsCounted (is_err result) (D.disk_faults disk.old) (D.disk_faults disk.new) }
{
    mend_end(disk, bytes, found.end)?;
    if found.unmarked {
        put_mark(disk, bytes, found.end)?;
        return Ok(found.end + 1);
    }
    Ok(found.end)
}

/// Brings a file to rest that was found so, and answers where it ends.
pub(crate) fn settle<D: Disk>(disk: &mut D, bytes: &[u8], found: Found) -> Result<u64, DiskFault>
    requires reads { Reads bytes.now (D.state disk.old) }
    requires pending { NothingPending (D.state disk.old) }
    requires within { 13 < length bytes.now → found.end ≤ length bytes.now }
    ensures at_rest { IfOk result (λ end. (m : Meaning) (ps : List (List ℕ))
        → IsFound m bytes.now ps found.end found.unmarked → IfSome (D.state disk.new) (IsAtRest m ps end)) }
    ensures room { IfOk result (λ end. end + 1 < 2 ^ 64) }
    ensures any_moment { (m : Meaning) (ps : List (List ℕ)) → IsFound m bytes.now ps found.end found.unmarked
        → IfSome (D.state disk.old) (λ s.
        AtAnyMoment (KeptAs m ps) (D.past disk.old) (D.past disk.new) (D.state disk.new)) }
    ensures counted { IsCounted (is_err result) (D.disk_faults disk.old) (D.disk_faults disk.new) }
{
    if bytes.len() <= SHORTEST {
        make_anew(disk, bytes)?;
        return Ok(12);
    }
    settle_long(disk, bytes, found)
}
