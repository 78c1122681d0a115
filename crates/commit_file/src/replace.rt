//! The end of a file is replaced.

ghost use Rattle.std.specs.Prelude.{◌≡◌, ◌≤◌, length, IfSome, is_err};
ghost use Rattle.dio_core.specs.Counts.{IsCounted};
ghost use Rattle.dio_core.specs.Told.{WhereTold};
ghost use Rattle.commit_file.specs.Through.{PassesAmong};
ghost use Rattle.commit_file.specs.Recovering.{Replaces, replace_moments};

use crate::through::{cut_through, write_through};
use dio_core::{Disk, DiskFault};

/// Cuts all behind a length, and writes these bytes in its place. The cut is on the disk before they are written, since
/// what stood there would count behind a gate that is torn open.
pub(crate) fn replace_end<D: Disk>(disk: &mut D, to: u64, bytes: &[u8]) -> Result<(), DiskFault>
    requires within { IfSome (D.state disk.old) (λ s. to ≤ length s.file) }
    ensures replaces { WhereTold (Replaces result to bytes.now) (D.state disk.old) (D.state disk.new) }
    ensures moments { IfSome (D.state disk.old) (λ s. PassesAmong (replace_moments to bytes.now s)
        (D.past disk.old) (D.past disk.new) (D.state disk.new)) }
    ensures counted { IsCounted (is_err result) (D.disk_faults disk.old) (D.disk_faults disk.new) }
{
    cut_through(disk, to)?;
    write_through(disk, to, bytes)
}
