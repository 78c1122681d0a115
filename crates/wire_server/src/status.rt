//! Why the serving of requests over a link ends before its input does, and the statuses with which it ends.

ghost use Rattle.std.specs.Prelude.{◌≡◌};
ghost use Rattle.wire_server.specs.code.Serving as spec;

use diamond_server::STORE_FAULT;
use plain_data::OrNoMemory;
use remote_service::ServiceError;
use script_runner::{NO_MEMORY, READ_FAULT, WHOLE, WRITE_FAULT};

/// The most requests of one link that are answered.
pub const MOST_REQUESTS: u32 = 1_000_000;

/// There is a frame behind that of the last request that is answered.
pub const TOO_MANY_REQUESTS: u8 = 9;

/// A request is malformed, or what comes is no frame. The other statuses are those of sessions.
pub const MALFORMED: u8 = 10;

/// Why a serving ends, memory aside.
#[derive(Clone, Copy, Debug, PartialEq, Eq)]
pub enum Cause {
    ReadFault,
    WriteFault,
    StoreFault,
    /// There is a frame behind that of the last request that is answered.
    TooManyRequests,
    /// A request is malformed, or what comes is no frame.
    Malformed,
}

/// Why a serving ends.
pub type Stop = OrNoMemory<Cause>;

/// An error of the service ends the serving.
pub fn stop_of(error: ServiceError) -> Stop
    ensures { result ≡ spec.stop_of error }
{
    match error {
        ServiceError::Malformed => OrNoMemory::Cause(Cause::Malformed),
        ServiceError::StoreFault => OrNoMemory::Cause(Cause::StoreFault),
        ServiceError::NoMemory => OrNoMemory::NoMemory,
    }
}

/// The status of a serving that ended so.
pub fn status_of(ended: Result<(), Stop>) -> u8
    ensures { result ≡ spec.status_of ended }
{
    match ended {
        Ok(()) => WHOLE,
        Err(OrNoMemory::NoMemory) => NO_MEMORY,
        Err(OrNoMemory::Cause(Cause::ReadFault)) => READ_FAULT,
        Err(OrNoMemory::Cause(Cause::WriteFault)) => WRITE_FAULT,
        Err(OrNoMemory::Cause(Cause::StoreFault)) => STORE_FAULT,
        Err(OrNoMemory::Cause(Cause::TooManyRequests)) => TOO_MANY_REQUESTS,
        Err(OrNoMemory::Cause(Cause::Malformed)) => MALFORMED,
    }
}
