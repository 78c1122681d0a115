//! The tables of the language, row by row, as a reader finds them in docs/LANGUAGE.md: what is written, and what it is. A
//! definition that is a table says itself what its rows are, so a wrong row would be the language. Here each row stands
//! once more, as it is meant, and each function's contract is that the definitions have these rows.
//!
//! There is no code: each function does nothing, and each clause is a table of `specs`.
#![tactic(auto)]

mod answers;
mod forms;
mod kinds;
mod limits;
mod operations;
mod operators;
mod printing;
mod typing;
mod words;

pub use answers::reads_answer;
pub use forms::texts_are_trees;
pub use kinds::kinds_are_as_written;
pub use limits::{limits_are, limits_are_met, steps_count};
pub use operations::{reads_mean, writes_mean};
pub use operators::operators_mean;
pub use printing::values_are_printed_so;
pub use typing::{forms_take, operators_take};
pub use words::{
    kinds_have_words, symbols_are_spelled_so, symbols_stand_for, tokens_are_as_written,
};
