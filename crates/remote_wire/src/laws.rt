//! Laws of requests, each the contract of a function that does nothing.

ghost use Rattle.remote_wire.specs.Laws.{RequestsAreRead, WhatIsReadIsARequest};

/// The law that a request is read from its spelling.
pub fn requests_are_read()
    ensures { RequestsAreRead }
{}

/// The law that bytes which are read as a request are its spelling, and that it has one.
pub fn what_is_read_is_a_request()
    ensures { WhatIsReadIsARequest }
{}
