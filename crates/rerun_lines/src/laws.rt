//! Laws: functions that do nothing, whose contracts are theorems over the definitions.

ghost use Rattle.rerun_lines.specs.AtOnce.{NeedsAreAsked, RerunsAtOnce};
ghost use Rattle.rerun_lines.specs.Repeated.{RerunsAreRepeated};

/// The law that the reruns of a driver's stale watches are what its next rerun and the report of that give, again and again,
/// until none is stale or one needs a value.
pub fn reruns_are_repeated()
    ensures { RerunsAreRepeated }
{}

/// The law that a line whose reruns need no value asks for nothing, and reports all of them.
pub fn reruns_at_once()
    ensures { RerunsAtOnce }
{}

/// The law that a line whose reruns need a value reports the watches before the first that needs one, and asks for that value
/// next; and that it ends with these reports and the late reply where that value is late.
pub fn needs_are_asked()
    ensures { NeedsAreAsked }
{}
