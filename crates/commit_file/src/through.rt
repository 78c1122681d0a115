//! Changes of a file that are durable once they are made.

ghost use Rattle.std.specs.Prelude.{◌≡◌, ◌+◌, ◌^◌, ◌<◌, ◌≤◌, length, IfSome, OnOk, is_err};
ghost use Rattle.dio_core.specs.Counts.{IsCounted};
ghost use Rattle.dio_core.specs.Told.{WhereTold};
ghost use Rattle.commit_file.specs.Through.{WritesThrough, CutsThrough, PassesAmong, write_moments, cut_moments};

use dio_core::{Disk, DiskFault};

/// Writes bytes at a place, and makes them outlast a crash.
pub(crate) fn write_through<D: Disk>(disk: &mut D, at: u64, bytes: &[u8]) -> Result<(), DiskFault>
    ensures fits { OnOk result (at + length bytes.now < 2 ^ 64) }
    ensures writes { WhereTold (WritesThrough result at bytes.now) (D.state disk.old) (D.state disk.new) }
    ensures moments { IfSome (D.state disk.old) (λ s. PassesAmong (write_moments at bytes.now s)
        (D.past disk.old) (D.past disk.new) (D.state disk.new)) }
    ensures counted { IsCounted (is_err result) (D.disk_faults disk.old) (D.disk_faults disk.new) }
{
    disk.write_at(at, bytes)?;
    disk.sync()
}

/// Cuts the file to a length, and makes it outlast a crash.
pub(crate) fn cut_through<D: Disk>(disk: &mut D, to: u64) -> Result<(), DiskFault>
    requires { IfSome (D.state disk.old) (λ s. to ≤ length s.file) }
    ensures cuts { WhereTold (CutsThrough result to) (D.state disk.old) (D.state disk.new) }
    ensures moments { IfSome (D.state disk.old) (λ s. PassesAmong (cut_moments to s)
        (D.past disk.old) (D.past disk.new) (D.state disk.new)) }
    ensures counted { IsCounted (is_err result) (D.disk_faults disk.old) (D.disk_faults disk.new) }
{
    disk.cut(to)?;
    disk.sync()
}
