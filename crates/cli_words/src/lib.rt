//! The words of the command line: what a user asks the program to do. Everything else of the program is told by what
//! these words spell, a [`Plan`].
//!
//! Read `specs/Forms.antt` first, which has the forms that words may have and what they spell, and then
//! `specs/Refusals.antt`, which says at which word others are refused.
#![tactic(auto)]

mod help;
mod limits;
mod name;
mod number;
mod options;
mod plan;
mod reading;
mod refusal;

pub use help::{Question, VERSION, asked, help_text};
pub use limits::{
    LEAST_COUNT, LEAST_SESSIONS, MOST_AT, MOST_COUNT, MOST_SEED, MOST_SESSIONS, STANDARD_SESSIONS,
};
pub use name::{CommandName, OptionName};
pub use plan::Plan;
pub use reading::{laws_of_words, read_words};
pub use refusal::{BadWords, Missing, Why, WordsError};
