//! Laws of a service beside its backend, each the contract of a function that does nothing.

ghost use Rattle.remote_direct.specs.Laws.{SessionsGoThrough, WhatMayBeAskedIsMeant};

use docc_prepare::Waiter;

/// The law that what may be asked has a meaning to the service, which is the call that may be made and is spelled so, but for the
/// fronts of an append. So nothing that may be asked is malformed.
pub fn what_may_be_asked_is_meant()
    ensures { WhatMayBeAskedIsMeant }
{}

/// The law that a function which performs a program over a remote client, whose caller is a service beside a backend, performs it
/// over that backend, to the same result.
pub fn sessions_go_through<B: Waiter, A, T, E>()
    ensures { SessionsGoThrough B.known B.goes A T E }
{}
