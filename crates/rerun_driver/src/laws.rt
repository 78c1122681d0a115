//! The law of watches: a function that does nothing, whose contract is a theorem over the definitions.

ghost use Rattle.rerun_driver.specs.Touched.{StaleIsTouched};

/// The law that after feeds which follow one another from a watch's report it is stale exactly where commits since then
/// touch what its run observed.
pub fn stale_is_touched()
    ensures { StaleIsTouched }
{}
