//! The laws of backends, of stores and of witnesses: functions that do nothing, whose contracts are theorems over the definitions.

ghost use Rattle.docc_prepare.specs.Backends.{OthersCountAsWithin};
ghost use Rattle.docc_prepare.specs.Stores.{FirstStoreIsSound, StepsMayBeDone, StepsAreAnswered, StepsLeaveOthers, ShardsFollow};
ghost use Rattle.docc_prepare.specs.Witnesses.{WitnessIsNamed};

/// The law that the least pair has a witness, which names the observation and the change.
pub fn witness_is_named()
    ensures { WitnessIsNamed }
{}

/// The law that what others did before a call counts as done within it.
pub fn others_count_as_within()
    ensures { OthersCountAsWithin }
{}

/// The law that the first store is sound.
pub fn first_stores_are_sound()
    ensures { FirstStoreIsSound }
{}

/// The law that each step may be done, and that only a wait fails.
pub fn steps_may_be_done()
    ensures { StepsMayBeDone }
{}

/// The law that each call of a client is answered within what all backends promise, and leaves a sound store.
pub fn steps_are_answered()
    ensures { StepsAreAnswered }
{}

/// The law that to each other client it is as if others had been at work.
pub fn steps_leave_others()
    ensures { StepsLeaveOthers }
{}

/// The law that a shard which a client lets follow reaches the journal's end, and nothing else is lost.
pub fn shards_follow()
    ensures { ShardsFollow }
{}
