//! The laws of following a journal: functions that do nothing, whose contracts are theorems over the definitions.

ghost use Rattle.version_shard.specs.Laws.{EmptyHoldsNothing, LegalIsReadable, TailsAreOfTheirKinds};

/// The law that a legal journal can be read change by change.
pub fn legal_journals_are_readable()
    ensures { LegalIsReadable }
{}

/// The law that where a journal's deltas are of their kinds, so are the changes of each tail.
pub fn tails_are_of_their_kinds()
    ensures { TailsAreOfTheirKinds }
{}

/// The law that a shard which has followed nothing stands for the journal without commits.
pub fn empty_holds_nothing()
    ensures { EmptyHoldsNothing }
{}
