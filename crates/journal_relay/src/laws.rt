//! The laws of relays: functions that do nothing, whose contracts are theorems over the definitions.

ghost use Rattle.journal_relay.specs.Relays.{RelaysStay, RelaysFollow};

/// The law that a relay which stands for a journal stands for every journal that goes on from there.
pub fn relays_stay()
    ensures { RelaysStay }
{}

/// The law that a relay which stands for a journal, and follows the journal's tail behind it, stands for the journal still.
pub fn relays_follow()
    ensures { RelaysFollow }
{}
