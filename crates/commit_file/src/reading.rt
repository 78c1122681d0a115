//! The whole of a file is read.

ghost use Rattle.std.specs.Prelude.{◌≡◌, ◌≤◌, ◌<◌, take, length, true, false, IfOk, IfErr, IfSome};
ghost use Rattle.dio_core.specs.Counts.{IsCounted};
ghost use Rattle.dio_core.specs.Disks.{Reads};
ghost use Rattle.commit_file.specs.Recovering.{IsPlain, disk_failed};

use crate::recover_error::RecoverError;
use dio_core::Disk;
use plain_data::Text;
use std::alloc::Global;

/// How many bytes are asked for at once.
const PIECE: usize = 4096;

/// Reads some more, behind what was read so far. Whether there was any.
fn read_more<D: Disk>(disk: &mut D, bytes: &mut Text, buf: &mut [u8]) -> Result<bool, RecoverError>
    requires { 0 < length buf.old }
    ensures begun { IfSome (D.state disk.old) (λ s.
        take (length bytes.old) s.file ≡ bytes.old → take (length bytes.new) s.file ≡ bytes.new) }
    ensures more { IfOk result (λ some. some ≡ true → length bytes.old < length bytes.new) }
    ensures end { IfOk result (λ some. some ≡ false → IfSome (D.state disk.old) (λ s. length s.file ≤ length bytes.new)) }
    ensures same { D.state disk.new ≡ D.state disk.old }
    ensures past { D.past disk.new ≡ D.past disk.old }
    ensures plain { IfErr result IsPlain }
    ensures counted { IsCounted (disk_failed result) (D.disk_faults disk.old) (D.disk_faults disk.new) }
{
    let count = disk.read(bytes.len() as u64, buf)?;
    bytes.extend_from_slice(&buf[..count])?;
    Ok(count > 0)
}

/// Reads the whole file.
pub(crate) fn read_file<D: Disk>(alloc: Global, disk: &mut D) -> Result<Text, RecoverError>
    ensures reads { IfOk result (λ bytes. Reads bytes (D.state disk.old)) }
    ensures same { D.state disk.new ≡ D.state disk.old }
    ensures past { D.past disk.new ≡ D.past disk.old }
    ensures plain { IfErr result IsPlain }
    ensures counted { IsCounted (disk_failed result) (D.disk_faults disk.old) (D.disk_faults disk.new) }
{
    let length = disk.length()?;
    let mut bytes = Text::new(alloc);
    let mut buf = [0; PIECE];
    while (bytes.len() as u64) < length {
        if !read_more(disk, &mut bytes, &mut buf)? {
            return Ok(bytes);
        }
    }
    Ok(bytes)
}
