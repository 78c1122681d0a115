//! Why a session over a link ends before its input does, and the statuses with which it ends.

ghost use Rattle.std.specs.Prelude.{◌≡◌};
ghost use Rattle.diamond_server.specs.Accounts.{unread};
ghost use Rattle.diamond_server.specs.code.Serving as spec;

use diamond_store::JoinError;
use plain_data::OrNoMemory;
use script_runner::{NO_MEMORY, READ_FAULT, TOO_MANY_LINES, WHOLE, WRITE_FAULT};
use session_core::SessionError;

/// The store failed. The other statuses are those of scripts.
pub const STORE_FAULT: u8 = 6;

/// All clients' numbers were drawn, and none is left for the link's client.
pub const NO_CLIENT: u8 = 13;

/// Why a session ends, memory aside.
#[derive(Clone, Copy, Debug, PartialEq, Eq)]
pub enum Cause {
    ReadFault,
    WriteFault,
    StoreFault,
    /// There is a line behind the last one that may be read.
    TooManyLines,
}

/// Why a session ends.
pub type Stop = OrNoMemory<Cause>;

/// An error of a line ends the session over the link.
pub fn stop_of(error: SessionError) -> Stop
    ensures { result ≡ spec.stop_of error }
{
    match error {
        SessionError::StoreFault => OrNoMemory::Cause(Cause::StoreFault),
        SessionError::NoMemory => OrNoMemory::NoMemory,
    }
}

/// The status of a session whose lines ended so.
pub fn status_of(ended: Result<(), Stop>) -> u8
    ensures { result ≡ spec.status_of ended }
{
    match ended {
        Ok(()) => WHOLE,
        Err(OrNoMemory::NoMemory) => NO_MEMORY,
        Err(OrNoMemory::Cause(Cause::ReadFault)) => READ_FAULT,
        Err(OrNoMemory::Cause(Cause::WriteFault)) => WRITE_FAULT,
        Err(OrNoMemory::Cause(Cause::StoreFault)) => STORE_FAULT,
        Err(OrNoMemory::Cause(Cause::TooManyLines)) => TOO_MANY_LINES,
    }
}

/// The status of a link that isn't read, since no client joined for it.
pub fn unread_status(error: JoinError) -> u8
    ensures { result ≡ unread error }
{
    match error {
        JoinError::Clients(_) => NO_CLIENT,
        JoinError::NoMemory => NO_MEMORY,
    }
}
