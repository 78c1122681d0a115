//! The laws of attempts: functions that do nothing, whose contracts are theorems over the definitions.

ghost use Rattle.docc_prepare.specs.Serial.{LegalIsOrderly, FitsStays, ReadsAreObserved, RunsAsItRan, AppendingStaysLegal, FrontsSpareNoPair};
ghost use Rattle.docc_prepare.specs.Worlds.{EventsStaySound, MovesStaySound, FirstIsSound, EveryWorldIsSound};

/// The law that a legal journal is numbered from 1, with deltas of the kinds of their addresses.
pub fn legal_journals_are_orderly()
    ensures { LegalIsOrderly }
{}

/// The law that an attempt which fits a journal fits it when it has grown.
pub fn attempts_fit_longer_journals()
    ensures { FitsStays }
{}

/// The law that nothing is read in vain: an attempt that fits a journal and has run has read at observed addresses alone.
pub fn reads_are_observed()
    ensures { ReadsAreObserved }
{}

/// The law on which serializability rests: an attempt that fits a journal, and with whose observations no commit clashes,
/// runs on what the whole journal leaves exactly as it ran on what it read.
pub fn attempts_run_as_they_ran()
    ensures { RunsAsItRan }
{}

/// The law that the commit of such an attempt leaves the journal legal: its order is a serial order with the same outcomes.
pub fn appending_stays_legal()
    ensures { AppendingStaysLegal }
{}

/// The law that looking past the prepared fronts alone is looking at all pairs.
pub fn fronts_spare_no_pair()
    ensures { FrontsSpareNoPair }
{}

/// The law that each event of a client that is in place leaves a sound world sound.
pub fn events_stay_sound()
    ensures { EventsStaySound }
{}

/// The law that so does each move, which opens or closes an attempt, or makes, reports or forgets a watch.
pub fn moves_stay_sound()
    ensures { MovesStaySound }
{}

/// The law that the first world is sound.
pub fn first_worlds_are_sound()
    ensures { FirstIsSound }
{}

/// The law that every list of events and moves, each in place in its world, leads from the first world to a sound one.
pub fn every_world_is_sound()
    ensures { EveryWorldIsSound }
{}
