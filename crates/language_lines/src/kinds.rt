//! The kinds.

ghost use Rattle.language_lines.specs.Kinds.{KindsRise, KindsHaveWords, KindsHaveDefaults};

/// The seven kinds.
pub fn kinds_are_as_written()
    ensures order { KindsRise }
    ensures words { KindsHaveWords }
    ensures defaults { KindsHaveDefaults }
{}
