//! Laws of answers, each the contract of a function that does nothing.

ghost use Rattle.remote_wire.specs.AnswerLaws.{AnswersAreRead, WhatIsReadIsAnAnswer};

/// The law that an answer is read from its spelling, by whoever made a request that it is an answer to.
pub fn answers_are_read()
    ensures { AnswersAreRead }
{}

/// The law that bytes which are read as an answer to a request are its spelling, and that it is an answer to it.
pub fn what_is_read_is_an_answer()
    ensures { WhatIsReadIsAnAnswer }
{}
