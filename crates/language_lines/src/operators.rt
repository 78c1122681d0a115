//! Operators on items.

ghost use Rattle.language_lines.specs.Operators.{PlusMeans, MinusMeans, TimesMeans, NegativeMeans, OrAndMean, OtherSideIsGiven};
ghost use Rattle.language_lines.specs.Operators.{ComparisonsMean, EqualityMeans, LenMeans};

/// What each operator makes of two items.
pub fn operators_mean()
    ensures plus { PlusMeans }
    ensures minus { MinusMeans }
    ensures times { TimesMeans }
    ensures negative { NegativeMeans }
    ensures or_and { OrAndMean }
    ensures other_side { OtherSideIsGiven }
    ensures comparisons { ComparisonsMean }
    ensures equality { EqualityMeans }
    ensures len { LenMeans }
{}
