//! Prints bodies: the one canonical text of each, in one line, with parentheses exactly where the grammar needs them.
//!
//! It stands above the grammar of bodies, and what prints bodies that were kept or sent stands on it. [`print`] goes
//! through the tree once and writes token by token into a `line`, which sets the spaces. Read first `specs/Canonical`
//! (the tokens of each node, and where parentheses stand) and `specs/Pieces` (the spaces); `specs/Columns` says what it
//! means that two bodies are the same but for columns, and the law [`printed_reads_back`] that the grammar derives the
//! same body from the text again.
#![tactic(auto)]

mod expression;
mod laws;
mod line;
mod place;
mod spelling;
mod statement;

pub use laws::{printed_reads_back, same_but_columns_is_equivalence};
pub use line::Line;
pub use place::Place;
pub use statement::print;
