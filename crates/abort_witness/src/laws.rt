//! Laws of the least pair and of witnesses: functions that do nothing, whose contracts are theorems over the definitions.

ghost use Rattle.abort_witness.specs.Naming.{WitnessesArePrintable};
ghost use Rattle.abort_witness.specs.Pairs.{LeastIsLeast};

/// The law that the least pair of a tail's changes is the least of all pairs, and none exactly where there is no pair.
pub fn least_is_least()
    ensures { LeastIsLeast }
{}

/// The law that no witness names an `over` that was true: nothing clashes with one.
pub fn witnesses_are_printable()
    ensures { WitnessesArePrintable }
{}
