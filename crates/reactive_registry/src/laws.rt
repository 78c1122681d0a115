//! The laws of registries: functions that do nothing, whose contracts are theorems over the definitions.

ghost use Rattle.reactive_registry.specs.Laws.{PendingIsSince, EntriesStand, TakesStand, SubscribesStand, UnsubscribesStand, FollowsStand, OneStands, AllStand, ClientsFollow};

/// The law that what is pending for one that stands for changes is what those since its last take come to.
pub fn pending_is_since()
    ensures { PendingIsSince }
{}

/// The law that one that enters stands for all changes up to the front.
pub fn entries_stand()
    ensures { EntriesStand }
{}

/// The law that one that has taken stands for all changes up to the front.
pub fn takes_stand()
    ensures { TakesStand }
{}

/// The law that one that subscribes, and is given all that it missed, goes on standing.
pub fn subscribes_stand()
    ensures { SubscribesStand }
{}

/// The law that one that unsubscribes goes on standing.
pub fn unsubscribes_stand()
    ensures { UnsubscribesStand }
{}

/// The law that one that is told of all later changes goes on standing for all.
pub fn follows_stand()
    ensures { FollowsStand }
{}

/// The law that a registry goes on standing where one subscriber comes, goes or takes.
pub fn one_stands()
    ensures { OneStands }
{}

/// The law that a registry which has followed later changes stands for all.
pub fn all_stand()
    ensures { AllStand }
{}

/// The law that joins registry, feeds and caches: a client that advances by what it takes holds the state.
pub fn clients_follow()
    ensures { ClientsFollow }
{}
