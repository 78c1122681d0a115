//! The laws of programs: functions that do nothing, whose contracts are theorems over the definitions, for values of any types.

ghost use Rattle.call_programs.specs.Played.{ProgramsArePlayed, SafeProgramsEnd};
ghost use Rattle.call_programs.specs.Safe.{FaultsAreCounted};

/// The law that a function which performs a program has raised the count of faults exactly where it tells a fault of the store.
pub fn faults_are_counted<A, T, E>()
    ensures { FaultsAreCounted A T E }
{}

/// The law that a program is played to an end exactly where calls of the store lead there.
pub fn programs_are_played<A>()
    ensures { ProgramsArePlayed A }
{}

/// The law that a safe program is played to its end over every sound store.
pub fn safe_programs_end<A>()
    ensures { SafeProgramsEnd A }
{}
