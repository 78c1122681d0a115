//! Frames are written.

ghost use Rattle.std.specs.Prelude.{◌≡◌, ◌+◌, ◌-◌, ◌++◌, ◌<◌, ◌≤◌, ◌^◌, length, take, drop, not};
ghost use Rattle.std.specs.Bool.{OnTrue};
ghost use Rattle.dio_core.specs.Counts.{IsCounted};
ghost use Rattle.dio_core.specs.Sinks.{with_more, TakesPrefix, PassesOn, IsPassedOn};
ghost use Rattle.wire_frames.specs.Frames.{frame};

use dio_core::{Sink, write_all};

/// How many bytes the front of a frame has at most, which is written at once: its length and its first bytes. Most frames
/// are no longer, so that they are one write.
const FRONT: usize = 1024;

/// Writes the frame of these bytes, and passes it on. `false` is a fault of the sink.
pub fn write_frame<W: Sink>(sink: &mut W, bytes: &[u8]) -> bool
    requires short { length bytes.now < 2 ^ 32 }
    ensures taken { OnTrue result (W.taken sink.new ≡ with_more (W.taken sink.old) (frame bytes.now)) }
    ensures flushed { OnTrue result (IsPassedOn (W.taken sink.new) (W.passed sink.new)) }

    // What was taken before a fault is a prefix of the frame.
    ensures prefix { TakesPrefix (frame bytes.now) (W.taken sink.old) (W.taken sink.new) }
    ensures passes { PassesOn (W.taken sink.new) (W.passed sink.old) (W.passed sink.new) }
    ensures unread { W.unread sink.new ≡ W.unread sink.old }
    ensures counted { IsCounted (not result) (W.write_faults sink.old) (W.write_faults sink.new) }
{
    let mut front = [0; FRONT];
    let count = fill_front(&mut front, bytes);
    if !write_both(sink, &front[..count], &bytes[count - 4..]) {
        return false;
    }
    sink.flush()
}

/// Puts the front of the frame of these bytes at the beginning of a buffer. How many bytes it has, of which four are the length.
fn fill_front(front: &mut [u8], bytes: &[u8]) -> usize
    requires room { 4 ≤ length front.old }
    requires short { length bytes.now < 2 ^ 32 }
    ensures least { 4 ≤ result }
    ensures most { result ≤ length front.new }
    ensures within { result ≤ 4 + length bytes.now }
    ensures parts { take result front.new ++ drop (result - 4) bytes.now ≡ frame bytes.now }
{
    let count = bytes.len().min(front.len() - 4);
    let length = bytes.len() as u32;
    front[..4].copy_from_slice(&length.to_be_bytes());
    front[4..4 + count].copy_from_slice(&bytes[..count]);
    4 + count
}

/// Writes these bytes and then those, or as many as the sink takes before it fails.
#[tactic(auto, using(crate::proofs::Written::prefix_first, crate::proofs::Written::prefix_second, crate::proofs::Written::all_both, crate::proofs::Written::passes_both))]
fn write_both<W: Sink>(sink: &mut W, first: &[u8], second: &[u8]) -> bool
    ensures all { OnTrue result (W.taken sink.new ≡ with_more (W.taken sink.old) (first.now ++ second.now)) }
    ensures prefix { TakesPrefix (first.now ++ second.now) (W.taken sink.old) (W.taken sink.new) }
    ensures passes { PassesOn (W.taken sink.new) (W.passed sink.old) (W.passed sink.new) }
    ensures unread { W.unread sink.new ≡ W.unread sink.old }
    ensures counted { IsCounted (not result) (W.write_faults sink.old) (W.write_faults sink.new) }
{
    if !write_all(sink, first) {
        return false;
    }
    write_all(sink, second)
}
