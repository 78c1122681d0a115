//! The rules of typing.

ghost use Rattle.language_lines.specs.Typing.{OperatorsTake, OperatorsBegin, ComparisonsTake};
ghost use Rattle.language_lines.specs.Typing.{LenTakes, StrTakes, NegativeTakes, NotTakes, TextsTake, KeysTake, ChainsTake};

/// What operators take.
pub fn operators_take()
    ensures both { OperatorsTake }
    ensures first { OperatorsBegin }
    ensures compared { ComparisonsTake }
{}

/// What forms take, and at which column something else is refused.
pub fn forms_take()
    ensures len { LenTakes }
    ensures str { StrTakes }
    ensures negative { NegativeTakes }
    ensures not { NotTakes }
    ensures texts { TextsTake }
    ensures keys { KeysTake }
    ensures chains { ChainsTake }
{}
