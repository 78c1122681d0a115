//! Laws of the definitions, each the contract of a function that does nothing.

ghost use Rattle.record_code.specs.Laws.{PayloadsAreRead, WhatIsReadIsAPayload, RunsAreRecorded, TwoHasAllKinds, RunsLeaveForms};

/// The law that a commit which has a payload is read from it.
pub fn payloads_are_read()
    ensures { PayloadsAreRead }
{}

/// The law that bytes which are read as a commit are its payload, and that it has one.
pub fn what_is_read_is_a_payload()
    ensures { WhatIsReadIsAPayload }
{}

/// The law that a commit which may be kept has a payload of each version that has its kinds.
pub fn runs_are_recorded()
    ensures { RunsAreRecorded }
{}

/// The law that version 2 has the kinds of each commit. So what may be kept has a payload of it.
pub fn version_two_has_all_kinds()
    ensures { TwoHasAllKinds }
{}

/// The law that what a run leaves has the forms of a payload: short texts, and deltas of their kinds at strictly
/// rising addresses.
pub fn runs_leave_forms()
    ensures { RunsLeaveForms }
{}
