//! Texts, and the trees that they are.

ghost use Rattle.language_lines.specs.Forms.{FormsAreRead, WritesAreRead, ReadsAreRead, OthersAreRefused};

/// Statements, expressions, writes and reads as they are written, and texts that are none.
pub fn texts_are_trees()
    ensures forms { FormsAreRead }
    ensures writes { WritesAreRead }
    ensures reads { ReadsAreRead }
    ensures others { OthersAreRefused }
{}
