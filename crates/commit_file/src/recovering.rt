//! Recovery of a file that a crash may have left.

ghost use Rattle.std.specs.Prelude.{◌≡◌, ◌≢◌, ◌+◌, ◌<◌, ◌≤◌, ◌^◌, ◌++◌, [], false, length, Err, IfOk, IfErr, IfSome};
ghost use Rattle.dio_core.specs.Counts.{IsCounted};
ghost use Rattle.dio_core.specs.Disks.{NothingPending};
ghost use Rattle.dio_core.specs.Moments.{AtAnyMoment};
ghost use Rattle.commit_file.specs.declared.recover_error.RecoverError.TheVariants as error;
ghost use Rattle.commit_file.specs.declared.version.Version.TheVariants.{One, Two};
ghost use Rattle.commit_file.specs.Files.{header};
ghost use Rattle.commit_file.specs.Keepers.{Stands};
ghost use Rattle.commit_file.specs.Kept.{kept, KeptAs, KeptAlike};
ghost use Rattle.commit_file.specs.Recovering.{IsFound, IsAtRest, IsRefused, IsForeign, disk_failed};

use crate::chain::Chain;
use crate::reading::read_file;
use crate::recover_error::RecoverError;
use crate::scanning::{behind_mark, place, scan};
use crate::settling::{SHORTEST, settle};
use crate::version::Version;
use dio_core::Disk;
use std::alloc::Global;

/// How many bytes a file has before its first frame.
const HEADER_LENGTH: usize = 12;

/// The header of a file of version 1.
const HEADER_ONE: [u8; 12] = *b"DIAMONDJ\0\0\0\x01";

/// The header of a file of version 2.
const HEADER_TWO: [u8; 12] = *b"DIAMONDJ\0\0\0\x02";

/// Where the frames of a file end, and whether it is of version 1 and has no mark.
#[derive(Clone, Copy, Debug, PartialEq, Eq)]
pub(crate) struct Found {
    pub(crate) end: u64,
    pub(crate) unmarked: bool,
}

/// Takes the payloads behind a header of version 2.
fn read_frames<C: Chain>(chain: &mut C, frames: &[u8]) -> Result<Found, RecoverError>
    requires empty { C.payloads chain.old ≡ [] }
    requires fits { 12 + length frames.now < 2 ^ 64 }
    ensures found { IfOk result (λ f. 1 < length frames.now
        → IsFound C.follows (header Two ++ frames.now) (C.payloads chain.new) f.end f.unmarked) }
    ensures refused { IfErr result (λ e. 1 < length frames.now → IsRefused (kept C.follows (header Two ++ frames.now)) e) }
    ensures no_fault { disk_failed result ≡ false }
{
    let behind = scan(chain, Version::Two, HEADER_LENGTH as u64, frames)?;
    Ok(Found {
        end: place(HEADER_LENGTH as u64, frames, behind),
        unmarked: false,
    })
}

/// Takes the payloads behind a header of version 1, and those behind a mark.
fn read_old_frames<C: Chain>(chain: &mut C, frames: &[u8]) -> Result<Found, RecoverError>
    requires empty { C.payloads chain.old ≡ [] }
    requires fits { 12 + length frames.now < 2 ^ 64 }
    ensures found { IfOk result (λ f. 1 < length frames.now
        → IsFound C.follows (header One ++ frames.now) (C.payloads chain.new) f.end f.unmarked) }
    ensures refused { IfErr result (λ e. 1 < length frames.now → IsRefused (kept C.follows (header One ++ frames.now)) e) }
    ensures no_fault { disk_failed result ≡ false }
{
    let at = HEADER_LENGTH as u64;
    let behind = scan(chain, Version::One, at, frames)?;
    let Some(marked) = behind_mark(behind) else {
        return Ok(Found {
            end: place(at, frames, behind),
            unmarked: true,
        });
    };
    let last = scan(chain, Version::Two, place(at, frames, marked), marked)?;
    Ok(Found {
        end: place(at, frames, last),
        unmarked: false,
    })
}

/// Takes the payloads that a file is kept as.
fn read_bytes<C: Chain>(chain: &mut C, bytes: &[u8]) -> Result<Found, RecoverError>
    requires { C.payloads chain.old ≡ [] }
    ensures found { IfOk result (λ f. IsFound C.follows bytes.now (C.payloads chain.new) f.end f.unmarked) }
    ensures refused { IfErr result (IsRefused (kept C.follows bytes.now)) }

    // The file of another program is refused as that, and never as want of memory.
    ensures foreign { IsForeign bytes.now → result ≡ Err (error.NotJournal 0) }
    ensures no_fault { disk_failed result ≡ false }
{
    if bytes.len() <= SHORTEST {
        return Ok(Found {
            end: HEADER_LENGTH as u64,
            unmarked: false,
        });
    }
    let (header, frames) = bytes.split_at(HEADER_LENGTH);
    if header == HEADER_TWO.as_slice() {
        return read_frames(chain, frames);
    }
    if header == HEADER_ONE.as_slice() {
        return read_old_frames(chain, frames);
    }
    Err(RecoverError::NotJournal(0))
}

/// Takes the payloads that the file on a disk is kept as. The disk stays as it is.
pub fn read_kept<D: Disk, C: Chain>(
    alloc: Global,
    disk: &mut D,
    chain: &mut C,
) -> Result<(), RecoverError>
    requires empty { C.payloads chain.old ≡ [] }
    ensures kept { IfOk result (λ _. IfSome (D.state disk.old) (λ s. KeptAs C.follows (C.payloads chain.new) s.file)) }
    ensures refused { IfErr result (λ e. IfSome (D.state disk.old) (λ s. IsRefused (kept C.follows s.file) e)) }
    ensures same { D.state disk.new ≡ D.state disk.old }
    ensures past { D.past disk.new ≡ D.past disk.old }
    ensures counted { IsCounted (disk_failed result) (D.disk_faults disk.old) (D.disk_faults disk.new) }
{
    let bytes = read_file(alloc, disk)?;
    let _found = read_bytes(chain, bytes.as_slice())?;
    Ok(())
}

/// Takes the payloads that a file is kept as, brings its end to rest, and answers where that is. Behind it a `FileKeeper`
/// goes on. A crash may come meanwhile as well, and the disk may fail.
pub fn recover<D: Disk, C: Chain>(
    alloc: Global,
    disk: &mut D,
    chain: &mut C,
) -> Result<u64, RecoverError>
    // After a restart a crash leaves the file as it reads.
    requires pending { NothingPending (D.state disk.old) }
    requires empty { C.payloads chain.old ≡ [] }

    ensures kept { IfOk result (λ _. IfSome (D.state disk.old) (λ s. KeptAs C.follows (C.payloads chain.new) s.file)) }
    ensures at_rest { IfOk result (λ end. IfSome (D.state disk.new) (IsAtRest C.follows (C.payloads chain.new) end)) }
    ensures stands { IfOk result (λ end. IfSome (D.state disk.new) (Stands false end)) }
    ensures room { IfOk result (λ end. end + 1 < 2 ^ 64) }
    ensures refused { IfErr result (λ e. IfSome (D.state disk.old) (λ s. IsRefused (kept C.follows s.file) e)) }

    // Unless the disk failed, a file that isn't recovered was not touched.
    ensures untouched { IfErr result (λ e. e ≢ error.DiskFault → D.state disk.new ≡ D.state disk.old) }
    ensures no_moment { IfErr result (λ e. e ≢ error.DiskFault → D.past disk.new ≡ D.past disk.old) }

    // A crash at any moment leaves a file that is kept as this one.
    ensures any_moment { IfSome (D.state disk.old) (λ s.
        AtAnyMoment (KeptAlike C.follows s.file) (D.past disk.old) (D.past disk.new) (D.state disk.new)) }
    ensures counted { IsCounted (disk_failed result) (D.disk_faults disk.old) (D.disk_faults disk.new) }
{
    let text = read_file(alloc, disk)?;
    let bytes = text.as_slice();
    let found = read_bytes(chain, bytes)?;
    let end = settle(disk, bytes, found)?;
    Ok(end)
}
