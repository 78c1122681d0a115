//! The texts in which data is printed and read: texts in quotes, addresses, values that bodies emit, outcomes, and write
//! parts. It stands on `rdt_types`, whose data it prints; what answers a line prints with it, and what reads answers
//! reads with it.
//!
//! Read first `specs/Printing` (the one printed form of each value), `specs/Spellings` (which bytes spell which value, as
//! rules) and `IsColumn` of `predictive_parsing` (where bytes stop being a spelling). `read_text` and its like read the
//! whole of some bytes; `next_text` and its like what is next at a cursor, for readers of longer texts. Each of them is
//! proved equal to its reader in `specs/code/Reading`; `laws` ties printing, reading and columns to the rules.
#![tactic(auto)]

mod beside;
mod character;
mod error;
mod item;
mod laws;
mod number;
mod part;
mod print;
mod read;
mod text;
mod value;

pub use beside::next_part;
pub use character::{is_blank, is_digit, is_letter, is_word};
pub use error::TextError;
pub use item::{next_item, next_outcome};
pub use laws::{
    columns_are_of_no_spelling, columns_are_unique, printed_reads_back, readers_are_rules,
    spellings_have_one_value,
};
pub use number::{LEAST, MOST, next_natural, next_number, next_positive};
pub use print::{
    print_address, print_item, print_outcome, print_part, print_text, push_address, push_natural,
    push_number, push_outcome, push_part, push_text,
};
pub use read::{finish, read_address, read_item, read_outcome, read_part, read_text};
pub use text::next_text;
pub use value::next_address;
