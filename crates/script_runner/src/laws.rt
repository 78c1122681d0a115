//! Laws of the definitions, each the contract of a function that does nothing.

ghost use Rattle.script_runner.specs.Laws.{LinesAreOver, LinesHaveEntries};
ghost use Rattle.script_runner.specs.Worlds.{ScriptsStand};

/// The law that the program of each line of a session is played to its end.
pub fn lines_are_over()
    ensures { LinesAreOver }
{}

/// The law that each line of a client who goes on has its entry in the play, so that this leaves nothing out.
pub fn lines_have_entries()
    ensures { LinesHaveEntries }
{}

/// The law that every script leaves a world that stands: its journal is legal, and each client's next line may come.
pub fn scripts_stand()
    ensures { ScriptsStand }
{}
