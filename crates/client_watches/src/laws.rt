//! The laws of lines of watches: functions that do nothing, whose contracts are theorems over the definitions.

ghost use Rattle.client_watches.specs.GoingOn.{LinesGoOn};
ghost use Rattle.client_watches.specs.InUse.{LinesLetGo};
ghost use Rattle.client_watches.specs.Laws.{PassingStays, BeginningsAttend, OthersLeaveStanding};
ghost use Rattle.client_watches.specs.LineLaws.{LinesAreSafe, LinesAskFew, LinesSayWhatIsSeen};
ghost use Rattle.client_watches.specs.LineLaws.{SyncIsExplained, WatchIsExplained, UnwatchIsExplained};

/// The law that a line's program is safe: each call that it asks may be made and is no wait, it is stuck nowhere, and what is kept
/// goes on being kept to.
pub fn lines_are_safe()
    ensures { LinesAreSafe }
{}

/// The law that what is kept goes on being kept to behind what others do, and where a shard was let follow.
pub fn lines_go_on()
    ensures { LinesGoOn }
{}

/// The law that a line's program asks no more calls than the watches there are allow.
pub fn lines_ask_few()
    ensures { LinesAskFew }
{}

/// The law that a line's program ends with replies of watches alone, at no number that isn't seen.
pub fn lines_say_what_is_seen()
    ensures { LinesSayWhatIsSeen }
{}

/// The law that at a line's end a value is held exactly where some watch observes it, and changes are told exactly there.
pub fn lines_let_go()
    ensures { LinesLetGo }
{}

/// The law that the replies with which the program of `sync` ends are explained by the journal: the reports are those of the
/// touched watches, in their order, each its body's outcome on one prefix, which isn't below what was shown.
pub fn sync_is_explained()
    ensures { SyncIsExplained }
{}

/// The law that the replies with which the program of `watch` ends are explained by the journal.
pub fn watch_is_explained()
    ensures { WatchIsExplained }
{}

/// The law that the reply with which the program of `unwatch` ends is explained: the watch of the name is gone, and every other
/// stands as it was.
pub fn unwatch_is_explained()
    ensures { UnwatchIsExplained }
{}

/// The law that a client without watches meets the condition of these three.
pub fn beginnings_attend()
    ensures { BeginningsAttend }
{}

/// The law that what others do between lines leaves what is kept standing for the journal.
pub fn others_leave_standing()
    ensures { OthersLeaveStanding }
{}

/// The law that what a journal explains, every longer one explains.
pub fn passing_stays()
    ensures { PassingStays }
{}
