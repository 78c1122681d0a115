//! The laws of caches: functions that do nothing, whose contracts are theorems over the definitions.

ghost use Rattle.client_cache.specs.Laws.{PendingAppliesInTurn, CachesFollow};

/// The law that what is pending after changes, applied at once, is each change in turn.
pub fn pending_applies_in_turn()
    ensures { PendingAppliesInTurn }
{}

/// The law that a cache which is advanced by what is pending goes on to hold the state.
pub fn caches_follow()
    ensures { CachesFollow }
{}
