//! Laws of remote clients, each the contract of a function that does nothing.

ghost use Rattle.remote_client.specs.Through.{LostClientsStayLost, ProgramsGoThrough};

use remote_calls::Caller;

/// The law that a function which performs a program over a remote client performs it by the steps of its caller: an answered
/// call is one of them, and one that failed leaves what the client stands for.
pub fn programs_go_through<C: Caller, A, T, E>()
    ensures { ProgramsGoThrough C.known C.goes C.does A T E }
{}

/// The law that behind a failed call every call wants memory, and does nothing.
pub fn lost_clients_stay_lost<C: Caller>()
    ensures { LostClientsStayLost C.goes C.does }
{}
