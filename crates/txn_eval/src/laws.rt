//! Laws of the definitions, each the contract of a function that does nothing.

ghost use Rattle.txn_eval.specs.Pausing.{PausesStay};

/// The law that a run which comes to a pause comes to it on more values too.
pub fn pauses_stay()
    ensures { PausesStay }
{}
