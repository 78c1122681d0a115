//! Limits, and what is counted towards them.

ghost use Rattle.language_lines.specs.Limits.{LimitsOfTexts, LimitsOfRuns, LimitsOfStores, TokensAtLimits, TextsAtLimits, TextsTakeRoom};
ghost use Rattle.language_lines.specs.Limits.{TicksAtLimit, LoadAtLimit, NodesCharge, EmitsLoad, WritesLoad};

/// The numbers.
pub fn limits_are()
    ensures texts { LimitsOfTexts }
    ensures runs { LimitsOfRuns }
    ensures stores { LimitsOfStores }
{}

/// What is within a limit, and what is not.
pub fn limits_are_met()
    ensures tokens { TokensAtLimits }
    ensures texts { TextsAtLimits }
    ensures room { TextsTakeRoom }
    ensures ticks { TicksAtLimit }
    ensures load { LoadAtLimit }
{}

/// What is charged, and what is loaded.
pub fn steps_count()
    ensures nodes { NodesCharge }
    ensures emitted { EmitsLoad }
    ensures written { WritesLoad }
{}
