//! The laws of serial order: functions that do nothing, whose contracts are theorems over the definitions.

ghost use Rattle.serial_order.specs.Growing.{AbortsHaveAClash, GrownIsSerial, ObservedIsSerial};
ghost use Rattle.serial_order.specs.Holding.{CoveredIsNotAborted, HoldsOutlastAppends};
ghost use Rattle.serial_order.specs.Serial.{LegalIsSerial};

/// The law that a journal is legal exactly where it is the serial execution of its own requests.
pub fn legal_journals_are_serial()
    ensures { LegalIsSerial }
{}

/// The theorem: a journal that grew by the commits of undisturbed attempts is legal, and the serial execution of its requests.
pub fn grown_journals_are_serial()
    ensures { GrownIsSerial }
{}

/// The law that what an attempt observed, each at the length at which it read it, is what it would observe in the serial execution.
pub fn observed_is_serial()
    ensures { ObservedIsSerial }
{}

/// The law that an attempt is undisturbed, or there is a clash to name.
pub fn aborts_have_a_clash()
    ensures { AbortsHaveAClash }
{}

/// The law that what a live hold covers is refused for no clash, at a preparing or at an append.
pub fn covered_is_not_aborted()
    ensures { CoveredIsNotAborted }
{}

/// The law that an append ends no live hold but by its age, as its own client's, or as that of a client with an earlier one.
pub fn holds_outlast_appends()
    ensures { HoldsOutlastAppends }
{}
