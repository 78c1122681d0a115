//! The lines of a session and the replies to them, as texts: a line says what it asks for, and each reply has one printed
//! form, which reads back. It stands on `dtext`, by which the data in replies is printed and read; what serves a session
//! reads its lines here and prints its replies here, and what checks a session reads both.
//!
//! Read first `specs/Lines` (the forms of lines, a row a verb), `specs/Printing` (the printed form of replies, a row a reply)
//! and `specs/Replies` (the spellings of replies, a row a reply). The code reads with functions over the cursor of
//! `predictive_parsing`, each proved equal to its reader in `specs/code`; `laws` ties readers, printing and columns to the
//! rules.
#![tactic(auto)]

mod answer;
mod laws;
mod limits;
mod line;
mod observation;
mod print;
mod reply;
mod verb;
mod words;

pub use answer::read_reply;
pub use laws::{
    columns_pin_answers, printed_replies_read_back, readers_are_rules, texts_have_one_value,
};
pub use limits::{
    LARGEST, LARGEST_CLIENT, LARGEST_COLUMN, LARGEST_SHARD, MOST_ATTEMPTS, NAME_REST,
};
pub use line::read_verb;
pub use print::{print_reply, push_reply};
pub use reply::{Reply, Why};
pub use verb::{Verb, VerbError};
