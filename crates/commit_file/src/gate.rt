//! Bytes are written behind a closed gate, and then the gate is set.

ghost use Rattle.std.specs.Prelude.{◌≡◌, ◌+◌, ◌<◌, ◌^◌, length, IfSome};
ghost use Rattle.dio_core.specs.Counts.{IsCounted};
ghost use Rattle.dio_core.specs.Told.{WhereTold};
ghost use Rattle.commit_file.specs.Through.{PassesAmong};
ghost use Rattle.commit_file.specs.Standing.{SetsGate, gate_moments, has_failed};

use crate::through::write_through;
use dio_core::{Disk, DiskFault};

/// The byte of a gate behind which nothing counts.
pub(crate) const CLOSED: u8 = 0;

/// The byte of a gate behind which a frame stands.
pub(crate) const OPEN: u8 = 1;

/// The byte in a file of version 1 behind which payloads of version 2 stand.
pub(crate) const MARK: u8 = 2;

/// How far the setting of a gate came.
#[derive(Clone, Copy, Debug, PartialEq, Eq)]
pub(crate) enum Outcome {
    Done,
    /// The disk failed before the gate was touched.
    Behind,
    /// The disk failed once the gate had begun to be set.
    AtGate,
}

/// Writes bytes behind the closed gate at an end, and then sets the gate. The bytes are on the disk before it is touched.
pub(crate) fn set_gate<D: Disk>(disk: &mut D, gate: u8, end: u64, bytes: &[u8]) -> Outcome
    requires { end + 1 < 2 ^ 64 }
    ensures fits { result ≡ Outcome.Done → end + 1 + length bytes.now < 2 ^ 64 }
    ensures sets { WhereTold (SetsGate result gate end bytes.now) (D.state disk.old) (D.state disk.new) }
    ensures moments { IfSome (D.state disk.old) (λ s. PassesAmong (gate_moments gate end bytes.now s)
        (D.past disk.old) (D.past disk.new) (D.state disk.new)) }
    ensures counted { IsCounted (has_failed result) (D.disk_faults disk.old) (D.disk_faults disk.new) }
{
    match write_through(disk, end + 1, bytes) {
        Err(DiskFault) => Outcome::Behind,
        Ok(()) => match write_through(disk, end, &[gate]) {
            Err(DiskFault) => Outcome::AtGate,
            Ok(()) => Outcome::Done,
        },
    }
}
