//! Laws of the definitions, each the contract of a function that does nothing.

ghost use Rattle.txn_lang.specs.Journals.{LegalCommitsFollow};
ghost use Rattle.txn_lang.specs.Own.{DeltasLeaveWhatOperationsLeave};
ghost use Rattle.txn_lang.specs.Execution.{RunsAreBounded};
ghost use Rattle.txn_lang.specs.Determinacy.{RunsAreDetermined};
ghost use Rattle.txn_lang.specs.Few.{ObservationsAreFew, ReadsAreFew};
ghost use Rattle.txn_lang.specs.Observed.{NeedsAreMissing, WholeRunsAreDone, ObservedIsThere, RunsStayDone, NeedsStay};
ghost use Rattle.txn_lang.specs.Short.{RunsAskShort};
ghost use Rattle.txn_lang.specs.Tree.{TreesAreTypedBodies};
ghost use Rattle.txn_lang.specs.Typing.{TypesAreFound, BodiesAreJudged};

/// The law that the deltas of a run leave at each address what its operations leave, one after the other.
pub fn deltas_leave_what_operations_leave()
    ensures { DeltasLeaveWhatOperationsLeave }
{}

/// The law that each commit of a legal journal is what its body does on the state of the commits before it.
pub fn legal_commits_follow()
    ensures { LegalCommitsFollow }
{}

/// The law that an expression has a type, by the rules of typing, exactly where the checker finds that type.
pub fn types_are_found()
    ensures { TypesAreFound }
{}

/// The law that a body is well typed exactly where the checker finds no rule that fails.
pub fn bodies_are_judged()
    ensures { BodiesAreJudged }
{}

/// The law of determinacy: if the run of a body on one state is done, and a second state agrees with it on all that was
/// observed, the run on the second is the same.
pub fn runs_are_determined()
    ensures { RunsAreDetermined }
{}

/// The law that a run needs a value only where the state has none.
pub fn needs_are_missing()
    ensures { NeedsAreMissing }
{}

/// The law that on a whole state every run is done.
pub fn whole_runs_are_done()
    ensures { WholeRunsAreDone }
{}

/// The law that the state has each value that a run which is done observed, and that each observation is of the kind of
/// its value's address.
pub fn observed_is_there()
    ensures { ObservedIsThere }
{}

/// The law that a run which is done is the same on a state with more values.
pub fn runs_stay_done()
    ensures { RunsStayDone }
{}

/// The law that a run which needs an address needs it on a state with more values too, where that one is still missing.
pub fn needs_stay()
    ensures { NeedsStay }
{}

/// The law that a run needs a value only at an address with a key of at most `TEXT_LIMIT` bytes, and observes only at such
/// addresses and of no longer texts.
pub fn runs_ask_short()
    ensures { RunsAskShort }
{}

/// The law that a run which is done made no more observations than it may charge ticks.
pub fn observations_are_few()
    ensures { ObservationsAreFew }
{}

/// The law that a run to which values are given one by one, each at the address that it needs next, is given no more than it
/// may charge ticks.
pub fn reads_are_few()
    ensures { ReadsAreFew }
{}

/// The law that no run charges more ticks than the limit.
pub fn runs_are_bounded()
    ensures { RunsAreBounded }
{}

/// The law that a text has a tree exactly where the grammar derives it from the text's tokens, and it is well typed. So
/// a text has one tree at most.
pub fn trees_are_typed_bodies()
    ensures { TreesAreTypedBodies }
{}
