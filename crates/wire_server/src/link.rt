//! A link as a service uses it: frames of requests come in, and frames of answers go out.

ghost use Rattle.std.specs.Prelude.{◌≡◌, ◌<◌, ◌^◌, length};
ghost use Rattle.diamond_server.specs.Promises.{sides};
ghost use Rattle.wire_server.specs.code.Serving.{ReadsRequest, WritesReply};

use crate::status::{Cause, Stop};
use dio_core::End;
use plain_data::{OrNoMemory, Text};
use remote_wire::LONGEST_REQUEST;
use std::alloc::Global;
use wire_frames::{Frame, FrameFault, read_frame, write_frame};

/// The bytes of the next request. `None` says that the link has ended between two frames.
pub fn read_request<K: End>(alloc: Global, link: &mut K) -> Result<Option<Text>, Stop>
    ensures reads { ReadsRequest result (sides K.Source K.Sink link.old).inwards (sides K.Source K.Sink link.new).inwards }
    ensures outgoing { (sides K.Source K.Sink link.new).outwards ≡ (sides K.Source K.Sink link.old).outwards }
{
    match read_frame(alloc, link, LONGEST_REQUEST as u32) {
        Ok(Frame::Bytes(bytes)) => Ok(Some(bytes)),
        Ok(Frame::End) => Ok(None),
        Err(FrameFault::ReadFault) => Err(OrNoMemory::Cause(Cause::ReadFault)),
        Err(FrameFault::Broken) => Err(OrNoMemory::Cause(Cause::Malformed)),
        Err(FrameFault::NoMemory) => Err(OrNoMemory::NoMemory),
    }
}

/// Writes an answer, and passes it on. `false` is a fault of the link.
pub fn write_reply<K: End>(link: &mut K, reply: &[u8]) -> bool
    requires short { length reply.now < 2 ^ 32 }
    ensures writes { WritesReply result reply.now (sides K.Source K.Sink link.old).outwards (sides K.Source K.Sink link.new).outwards }
    ensures incoming { (sides K.Source K.Sink link.new).inwards ≡ (sides K.Source K.Sink link.old).inwards }
{
    write_frame(link, reply)
}
