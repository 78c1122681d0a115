//! What recovery makes of a file, and of what a crash leaves of it.

ghost use Rattle.std.specs.Prelude.{◌≤◌, length, Some};
ghost use Rattle.dio_core.specs.Disks.{NothingPending};

use crate::files::difference::{Difference, Found};
use commit_file::{MemDisk, RecoverError, Torn};
use journal_file::{read_kept, recover};
use plain_data::Text;
use std::alloc::{AllocError, Global};
use txn_lang::CommitList;

/// What a crash may leave.
const TORN: [Torn; 3] = [Torn::Old, Torn::New, Torn::Ones];

/// The file on a disk, as it reads.
pub fn as_it_reads(disk: &MemDisk) -> Result<Text, AllocError> {
    disk.image(disk.calls(), Torn::New)
}

/// Whether commits have these bodies, in their order.
fn have_bodies(commits: &CommitList, bodies: &[&str]) -> bool {
    commits.len() == bodies.len()
        && commits
            .as_slice()
            .iter()
            .zip(bodies)
            .all(|(commit, body)| commit.body.as_slice() == body.as_bytes())
}

/// Why a file was not recovered.
fn cause(error: RecoverError) -> Found {
    match error {
        RecoverError::NotJournal(at) => Found::NotJournal(at),
        RecoverError::DiskFault => Found::DiskFault,
        RecoverError::NoMemory => Found::NoMemory,
    }
}

/// What the recovery of a disk finds, where commits with these bodies are wanted.
fn found_on(alloc: Global, disk: &mut MemDisk, bodies: &[&str]) -> Found
    requires { NothingPending (Some disk.old.present) }
{
    match recover(alloc, disk) {
        Ok(recovered) => {
            if have_bodies(&recovered.commits, bodies) {
                Found::Journal(recovered.end)
            } else {
                Found::Others
            }
        }
        Err(error) => cause(error),
    }
}

/// What who only reads finds.
fn read_on(alloc: Global, disk: &mut MemDisk, bodies: &[&str]) -> Found {
    match read_kept(alloc, disk) {
        Ok(commits) => {
            if have_bodies(&commits, bodies) {
                Found::Journal(0)
            } else {
                Found::Others
            }
        }
        Err(error) => cause(error),
    }
}

/// What recovery makes of a file, which it changes as it does.
pub(crate) fn recovery_of(
    alloc: Global,
    file: &mut Text,
    bodies: &[&str],
) -> Result<Found, AllocError> {
    let mut disk = MemDisk::new(alloc, file.as_slice(), &[])?;
    let found = found_on(alloc, &mut disk, bodies);
    *file = as_it_reads(&disk)?;
    Ok(found)
}

/// Whether a file is recovered to commits with these bodies.
fn recovers_to(alloc: Global, file: &[u8], bodies: &[&str]) -> Result<bool, AllocError> {
    let mut disk = MemDisk::new(alloc, file, &[])?;
    Ok(matches!(found_on(alloc, &mut disk, bodies), Found::Journal(_)))
}

/// Whether each image that a crash may leave after so many calls is recovered to commits with either of these bodies.
pub(crate) fn leaves_either(
    alloc: Global,
    disk: &MemDisk,
    calls: u64,
    one: &[&str],
    other: &[&str],
) -> Result<bool, AllocError>
    requires { calls ≤ length disk.now.marks }
{
    for torn in TORN {
        let image = disk.image(calls, torn)?;
        let file = image.as_slice();
        if !recovers_to(alloc, file, one)? && !recovers_to(alloc, file, other)? {
            return Ok(false);
        }
    }
    Ok(true)
}

/// The first moment of a disk at which a crash may leave something else than commits with these bodies.
fn unsafe_moment(
    alloc: Global,
    disk: &MemDisk,
    bodies: &[&str],
) -> Result<Option<Difference>, AllocError> {
    for calls in 0..disk.calls() {
        if !leaves_either(alloc, disk, calls, bodies, bodies)? {
            return Ok(Some(Difference::Crash(calls)));
        }
    }
    let calls = disk.calls();
    Ok(if leaves_either(alloc, disk, calls, bodies, bodies)? {
        None
    } else {
        Some(Difference::Crash(calls))
    })
}

/// How a recovery that may be cut off at each call differs. It gives how many calls there are besides.
fn cut_off(
    alloc: Global,
    file: &[u8],
    bodies: &[&str],
) -> Result<(u64, Option<Difference>), AllocError> {
    let mut disk = MemDisk::new(alloc, file, &[])?;
    let _found = found_on(alloc, &mut disk, bodies);
    let moment = unsafe_moment(alloc, &disk, bodies)?;
    Ok((disk.calls(), moment))
}

/// Whether recovery fails where this call does, and a crash at any moment leaves commits with these bodies.
fn fails_safely(
    alloc: Global,
    file: &[u8],
    call: u64,
    bodies: &[&str],
) -> Result<bool, AllocError> {
    let mut disk = MemDisk::new(alloc, file, &[call])?;
    let found = found_on(alloc, &mut disk, bodies);
    Ok(found == Found::DiskFault && unsafe_moment(alloc, &disk, bodies)?.is_none())
}

/// How a recovery that is cut off, or fails, at any of its calls differs.
fn find_unsafe(
    alloc: Global,
    file: &[u8],
    bodies: &[&str],
) -> Result<Option<Difference>, AllocError> {
    let (calls, moment) = cut_off(alloc, file, bodies)?;
    if moment.is_some() {
        return Ok(moment);
    }
    for call in 0..calls {
        if !fails_safely(alloc, file, call, bodies)? {
            return Ok(Some(Difference::Fault(call)));
        }
    }
    Ok(None)
}

/// Whether who only reads finds this, and leaves each byte as it was.
pub(crate) fn reads_alone(
    alloc: Global,
    file: &[u8],
    bodies: &[&str],
    wanted: Found,
) -> Result<bool, AllocError> {
    let mut disk = MemDisk::new(alloc, file, &[])?;
    let found = read_on(alloc, &mut disk, bodies);
    let left = as_it_reads(&disk)?;
    Ok(found == wanted && left.as_slice() == file)
}

/// Whether a second recovery finds the same, and leaves the file as the first one did.
fn rests(alloc: Global, file: &[u8], bodies: &[&str], wanted: Found) -> Result<bool, AllocError> {
    let mut again = Text::from_slice(alloc, file)?;
    let found = recovery_of(alloc, &mut again, bodies)?;
    Ok(found == wanted && again.as_slice() == file)
}

/// How the recovery of a file differs. The file is then what it leaves.
fn recover_once(
    alloc: Global,
    file: &mut Text,
    bodies: &[&str],
    end: u64,
) -> Result<Option<Difference>, AllocError> {
    let found = recovery_of(alloc, file, bodies)?;
    if found != Found::Journal(end) {
        return Ok(Some(Difference::Found(found)));
    }
    if file.len() as u64 != end.saturating_add(1) {
        return Ok(Some(Difference::Long(file.len())));
    }
    if !rests(alloc, file.as_slice(), bodies, found)? {
        return Ok(Some(Difference::Second));
    }
    Ok(None)
}

/// How it differs what is made of a file that holds commits with these bodies: by a recovery, by a second one, by one that is cut
/// off or fails at each of its calls, and by who only reads. The file is then what a recovery leaves.
pub(crate) fn recovers(
    alloc: Global,
    file: &mut Text,
    bodies: &[&str],
    end: u64,
) -> Result<Option<Difference>, AllocError> {
    if !reads_alone(alloc, file.as_slice(), bodies, Found::Journal(0))? {
        return Ok(Some(Difference::Reading));
    }
    let cut_off = find_unsafe(alloc, file.as_slice(), bodies)?;
    if cut_off.is_some() {
        return Ok(cut_off);
    }
    recover_once(alloc, file, bodies, end)
}
