//! Laws of the definitions, each the contract of a function that does nothing.

ghost use Rattle.audit_core.specs.Dumps.{OneDump};
ghost use Rattle.audit_core.specs.Reports.{OneReport};
ghost use Rattle.audit_core.specs.Verdicts.{FlawsAreBreaches, OneVerdict};

/// The law that a commit has a flaw only where it may not follow those before it, and one at most.
pub fn flaws_are_breaches()
    ensures { FlawsAreBreaches }
{}

/// The law that of each list one verdict holds at most, and that it is `Legal` exactly where the list is a legal journal.
pub fn one_verdict()
    ensures { OneVerdict }
{}

/// The law that a dump is the state, at each address that was written and at no other.
pub fn one_dump()
    ensures { OneDump }
{}

/// The law that of each list one report holds at most.
pub fn one_report()
    ensures { OneReport }
{}
