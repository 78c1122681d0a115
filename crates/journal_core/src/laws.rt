//! The laws of pairs: functions that do nothing, whose contracts are theorems over the definitions.

ghost use Rattle.journal_core.specs.Pairs.{LeastIsFirst, LeastPairIsLeast};

/// The law that the least pair in the changes of a journal is the first of its pairs, by commits and then by observations.
pub fn least_is_first()
    ensures { LeastIsFirst }
{}

/// The law that the least pair of a journal is the least of all pairs, and none exactly where there is no pair.
pub fn least_pair_is_least()
    ensures { LeastPairIsLeast }
{}
