//! The laws of lines: functions that do nothing, whose contracts are theorems over the definitions.

ghost use Rattle.session_core.specs.Bounds.{TriesAreFew};
ghost use Rattle.session_core.specs.GoingOn.{SessionsGoOn};
ghost use Rattle.session_core.specs.LineLaws.{LinesAskFew, MostCallsAreEnough, LinesAreSafe, LinesAnswerForThemselves, LinesAreExplained};
ghost use Rattle.session_core.specs.LineTalks.{DoneLinesAreExplained};
ghost use Rattle.session_core.specs.Lines.{VerbsAreForms};
ghost use Rattle.session_core.specs.Sessions.{ExplainsStays};

/// The law that the verb of a line is the one of whose form it is.
pub fn verbs_are_forms()
    ensures { VerbsAreForms }
{}

/// The law that a line which was read makes one try at least, and sixteen at most.
pub fn tries_are_few()
    ensures { TriesAreFew }
{}

/// The law that what a journal explains, every longer one explains.
pub fn explained_stays()
    ensures { ExplainsStays }
{}

/// The law that a session goes on behind what others do, and where a shard was let follow.
pub fn sessions_go_on()
    ensures { SessionsGoOn }
{}

/// The law that a line asks no more calls than its form allows, whatever it is answered.
pub fn lines_ask_few()
    ensures { LinesAskFew }
{}

/// The law that a line without watches which was read asks no more than `MOST_CALLS` calls.
pub fn most_calls_are_enough()
    ensures { MostCallsAreEnough }
{}

/// The law that each call of a line may be made, that its program is stuck nowhere, and that the session goes on behind it.
pub fn lines_are_safe()
    ensures { LinesAreSafe }
{}

/// The law that a line answers for all that it does: the client's commits and denials.
pub fn lines_answer_for_themselves()
    ensures { LinesAnswerForThemselves }
{}

/// The law that a line ends with an answer that the journal explains, whatever was shown before.
pub fn lines_are_explained()
    ensures { LinesAreExplained }
{}

/// The law that all answers of a session are explained by the journal at its end, whatever others did between its lines, and
/// that its client's commits and denials are the answered ones.
pub fn done_lines_are_explained()
    ensures { DoneLinesAreExplained }
{}
