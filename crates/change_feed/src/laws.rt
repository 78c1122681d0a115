//! The laws of feeds: functions that do nothing, whose contracts are theorems over the definitions.

ghost use Rattle.change_feed.specs.Feeds.{FeedsKeepPending, FeedsJoin, PendingJoins};

/// The law that a feed which got changes one by one has at each address what is pending there.
pub fn feeds_keep_pending()
    ensures { FeedsKeepPending }
{}

/// The law that a feed and a later one, joined, have at each address the composition of what both have there.
pub fn feeds_join()
    ensures { FeedsJoin }
{}

/// The law that what is pending after changes and then others is the one and then the other.
pub fn pending_joins()
    ensures { PendingJoins }
{}
