//! A request goes out over a link, and its answer comes back.

ghost use Rattle.std.specs.Prelude.{◌≡◌, ◌≤◌, length, not, Err};
ghost use Rattle.std.specs.Bool.{OnTrue};
ghost use Rattle.dio_core.specs.Counts.{IsCounted};
ghost use Rattle.dio_core.specs.Links.{incoming, outgoing};
ghost use Rattle.dio_core.specs.Sinks.{with_more, TakesPrefix, IsPassedOn};
ghost use Rattle.wire_frames.specs.declared.reading.FrameFault.TheVariants as frame_faults;
ghost use Rattle.wire_frames.specs.Frames.{frame, TakesFrame, LacksMemory, frame_failed};
ghost use Rattle.remote_wire.specs.declared.limits.TheConstants.{LONGEST_REQUEST};
ghost use Rattle.remote_wire.specs.declared.answer_limits.TheConstants.{LONGEST_ANSWER};
ghost use Rattle.remote_link.specs.Exchanging.{sides, Exchanged};
ghost use Rattle.remote_link.specs.code.Sending.{ReadsAnswer};

use dio_core::End;
use remote_wire::{
    LONGEST_ANSWER, LONGEST_REQUEST, Request, WireAnswer, WireError, decode_answer, encode_request,
};
use std::alloc::{AllocError, Global};
use wire_frames::{Frame, FrameFault, read_frame, write_frame};

/// Why a request is not answered.
#[derive(Clone, Copy, Debug, PartialEq, Eq)]
pub enum Failure {
    /// The link failed, and counted it.
    Link,
    /// What came back is no answer to the request.
    Broken,
    NoMemory,
}

impl From<AllocError> for Failure {
    ghost use Rattle.std.specs.Prelude.{◌≡◌};
    ghost use Rattle.remote_link.specs.declared.exchange.Failure.TheVariants.{NoMemory};

    ghost from_gives = { λ _ failure. failure ≡ NoMemory };

    fn from(_error: AllocError) -> Failure {
        Failure::NoMemory
    }
}

impl From<FrameFault> for Failure {
    ghost use Rattle.std.specs.Prelude.{◌≡◌};
    ghost use Rattle.remote_link.specs.code.Sending.{failure_of_frame};

    ghost from_gives = { λ fault failure. failure ≡ failure_of_frame fault };

    fn from(fault: FrameFault) -> Failure {
        match fault {
            FrameFault::ReadFault => Failure::Link,
            FrameFault::Broken => Failure::Broken,
            FrameFault::NoMemory => Failure::NoMemory,
        }
    }
}

impl From<WireError> for Failure {
    ghost use Rattle.std.specs.Prelude.{◌≡◌};
    ghost use Rattle.remote_link.specs.code.Sending.{failure_of_wire};

    ghost from_gives = { λ error failure. failure ≡ failure_of_wire error };

    fn from(error: WireError) -> Failure {
        match error {
            WireError::BadWire => Failure::Broken,
            WireError::NoMemory => Failure::NoMemory,
        }
    }
}

/// Writes the frame of a request, and reads a frame that is an answer to it.
#[tactic(auto, using(crate::proofs::Parts::none_taken, crate::proofs::Parts::all_taken))]
pub fn exchange<K: End>(
    alloc: Global,
    link: &mut K,
    request: &Request,
) -> Result<WireAnswer, Failure>
    ensures { Exchanged request.now result (sides K.Source K.Sink link.old) (sides K.Source K.Sink link.new) }
{
    let bytes = encode_request(alloc, request)?;
    if !send(link, bytes.as_slice()) {
        return Err(Failure::Link);
    }
    match receive(alloc, link)? {
        Frame::Bytes(text) => answer_of(alloc, request, text.as_slice()),
        Frame::End => Err(Failure::Broken),
    }
}

/// Writes a frame, and passes it on. `false` is a fault of the link.
fn send<K: End>(link: &mut K, bytes: &[u8]) -> bool
    requires short { length bytes.now ≤ LONGEST_REQUEST }
    ensures taken { OnTrue result (K.taken link.new ≡ with_more (K.taken link.old) (frame bytes.now)) }
    ensures prefix { TakesPrefix (frame bytes.now) (K.taken link.old) (K.taken link.new) }
    ensures passed { OnTrue result (IsPassedOn (K.taken link.new) (K.passed link.new)) }
    ensures writes { IsCounted (not result) (K.write_faults link.old) (K.write_faults link.new) }
    ensures incoming { incoming (K.left link.new) (K.read_faults link.new) ≡ incoming (K.left link.old) (K.read_faults link.old) }
{
    write_frame(link, bytes)
}

/// Reads a frame.
fn receive<K: End>(alloc: Global, link: &mut K) -> Result<Frame, FrameFault>
    ensures frame { TakesFrame LONGEST_ANSWER result (K.left link.old) (K.left link.new) }
    ensures memory { result ≡ Err frame_faults.NoMemory
        → LacksMemory LONGEST_ANSWER (K.left link.old) (K.left link.new) }
    ensures reads { IsCounted (frame_failed result) (K.read_faults link.old) (K.read_faults link.new) }
    ensures outgoing { outgoing (K.taken link.new) (K.passed link.new) (K.write_faults link.new)
        ≡ outgoing (K.taken link.old) (K.passed link.old) (K.write_faults link.old) }
{
    read_frame(alloc, link, LONGEST_ANSWER as u32)
}

/// The answer to a request that these bytes are.
fn answer_of(alloc: Global, request: &Request, bytes: &[u8]) -> Result<WireAnswer, Failure>
    ensures { ReadsAnswer request.now bytes.now result }
{
    Ok(decode_answer(alloc, request, bytes)?)
}
