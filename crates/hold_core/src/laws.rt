//! The laws of holds: functions that do nothing, whose contracts are theorems over the definitions.

ghost use Rattle.hold_core.specs.Laws.{BarsAreLeast, CoveredIsClear, HoldsEndOnlySo, LiveHoldsAreListed};

/// The law that the holds that are listed as live are exactly those that are.
pub fn live_holds_are_listed()
    ensures { LiveHoldsAreListed }
{}

/// The law that what is said to bar is the least live hold that does, and that nothing bars where nothing is said to.
pub fn bars_are_least()
    ensures { BarsAreLeast }
{}

/// The law that nothing clashes with what a live hold covers, so whoever holds is sure of its next try.
pub fn covered_is_clear()
    ensures { CoveredIsClear }
{}

/// The law that a hold ends only by its age, by a commit of its own client, or by one of a client with an earlier live hold.
pub fn holds_end_only_so()
    ensures { HoldsEndOnlySo }
{}
