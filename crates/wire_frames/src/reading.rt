//! Frames are read.

ghost use Rattle.std.specs.Prelude.{◌≡◌, ◌+◌, ◌<◌, ◌^◌, length, is_err, Err};
ghost use Rattle.std.specs.Int.{w32, from_be_bytes, to_be_bytes};
ghost use Rattle.dio_core.specs.Counts.{IsCounted};
ghost use Rattle.dio_core.specs.Sources.{with_prefix};
ghost use Rattle.wire_frames.specs.declared.reading.FrameFault.TheVariants as fault;
ghost use Rattle.wire_frames.specs.Frames.{TakesFrame, LacksMemory, frame_failed};
ghost use Rattle.wire_frames.specs.code.Pieces.{Fills, TakesRest, TakesPiece, rest_failed};

use dio_core::{Got, Source};
use plain_data::Text;
use std::alloc::{AllocError, Global};

/// How many bytes of a frame memory is taken for at once.
const PIECE: usize = 65_536;

/// A frame of a stream.
#[derive(Debug, Drop)]
pub enum Frame {
    /// The bytes of a frame, without its length.
    Bytes(Text),
    /// No frame, since nothing is left.
    End,
}

/// Why no frame is answered.
#[derive(Clone, Copy, Debug, PartialEq, Eq)]
pub enum FrameFault {
    /// A read failed, which the source has counted.
    ReadFault,
    /// The stream ends within a frame, or a frame has no byte or more than there may be.
    Broken,
    /// There was no memory for the frame.
    NoMemory,
}

impl From<AllocError> for FrameFault {
    ghost use Rattle.std.specs.Prelude.{◌≡◌};
    ghost use Rattle.wire_frames.specs.declared.reading.FrameFault.TheVariants.{NoMemory};

    ghost from_gives = { λ _ fault. fault ≡ NoMemory };

    fn from(_error: AllocError) -> FrameFault {
        FrameFault::NoMemory
    }
}

/// A read failed.
#[derive(Clone, Copy)]
struct ReadFailed;

impl From<ReadFailed> for FrameFault {
    ghost use Rattle.std.specs.Prelude.{◌≡◌};
    ghost use Rattle.wire_frames.specs.declared.reading.FrameFault.TheVariants.{ReadFault};

    ghost from_gives = { λ _ fault. fault ≡ ReadFault };

    fn from(_failed: ReadFailed) -> FrameFault {
        FrameFault::ReadFault
    }
}

/// The next frame of the source, which has at least one byte and at most so many. It takes this frame and no more. Memory is
/// taken as the bytes come, so that a length alone costs little.
pub fn read_frame<R: Source>(alloc: Global, source: &mut R, most: u32) -> Result<Frame, FrameFault>
    ensures frame { TakesFrame most result (R.left source.old) (R.left source.new) }

    // Memory is wanting only for the bytes of a frame, behind its length.
    ensures memory { result ≡ Err fault.NoMemory → LacksMemory most (R.left source.old) (R.left source.new) }
    ensures written { R.written source.new ≡ R.written source.old }
    ensures counted { IsCounted (frame_failed result) (R.read_faults source.old) (R.read_faults source.new) }
{
    let mut head = [0; 4];
    match fill(source, &mut head)? {
        0 => return Ok(Frame::End),
        4 => {}
        _ => return Err(FrameFault::Broken),
    }
    let length = length_of(head);
    if length == 0 || length > most {
        return Err(FrameFault::Broken);
    }
    Ok(Frame::Bytes(rest_of_frame(alloc, source, length)?))
}

/// The bytes of a frame behind its length.
fn rest_of_frame<R: Source>(alloc: Global, source: &mut R, length: u32) -> Result<Text, FrameFault>
    requires { 0 < length }
    ensures rest { TakesRest length result (R.left source.old) (R.left source.new) }
    ensures written { R.written source.new ≡ R.written source.old }
    ensures counted { IsCounted (rest_failed result) (R.read_faults source.old) (R.read_faults source.new) }
{
    let length = length as usize;
    let mut kept = Vec::new(alloc);
    while kept.len() < length {
        let more = PIECE.min(length - kept.len());
        read_piece(source, &mut kept, more)?;
    }
    Ok(Text::from_vec(kept))
}

/// Reads so many bytes more behind those that are kept.
fn read_piece<R: Source>(source: &mut R, kept: &mut Vec<u8>, more: usize) -> Result<(), FrameFault>
    requires some { 0 < more }
    requires fits { length kept.old.items + more < 2 ^ 32 }
    ensures piece { TakesPiece more kept.old.items result kept.new.items (R.left source.old) (R.left source.new) }

    // Memory is taken first, so where it is wanting nothing was read.
    ensures unread { result ≡ Err fault.NoMemory → R.left source.new ≡ R.left source.old }

    ensures written { R.written source.new ≡ R.written source.old }
    ensures counted { IsCounted (rest_failed result) (R.read_faults source.old) (R.read_faults source.new) }
{
    let from = kept.len();
    kept.resize(from + more, 0)?;
    let count = fill(source, &mut kept[from..])?;
    if count < more {
        return Err(FrameFault::Broken);
    }
    Ok(())
}

/// Fills a buffer, or as far as the source goes. How many bytes of it are filled.
fn fill<R: Source>(source: &mut R, buf: &mut [u8]) -> Result<usize, ReadFailed>
    ensures fills { Fills result buf.new (R.left source.old) (R.left source.new) }
    ensures size { length buf.new ≡ length buf.old }
    ensures written { R.written source.new ≡ R.written source.old }
    ensures counted { IsCounted (is_err result) (R.read_faults source.old) (R.read_faults source.new) }
{
    let mut count = 0;
    while count < buf.len() {
        match source.read(&mut buf[count..]) {
            Got::Bytes(more) => count += more,
            Got::End => return Ok(count),
            Got::Failed => return Err(ReadFailed),
        }
    }
    Ok(count)
}

/// The number that four bytes spell.
fn length_of(head: [u8; 4]) -> u32
    ensures number { result ≡ from_be_bytes w32 head }
    ensures spelled { to_be_bytes w32 result ≡ head }
{
    u32::from_be_bytes(head)
}
