//! The law of type errors: a function that does nothing, whose contract is a theorem over the definitions.

ghost use Rattle.type_errors.specs.Failing.{TypeErrorsAreFirst};

/// The law that the checker tells a column exactly where the body fails first.
pub fn type_errors_are_first()
    ensures { TypeErrorsAreFirst }
{}
