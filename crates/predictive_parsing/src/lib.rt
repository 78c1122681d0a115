//! Predictive parsing: a grammar is a relation, what reads it is a function that looks one item ahead, and a small
//! theory ties the two, one lemma for each way in which grammars are put together. Code reads with a [`Cursor`], and is
//! proved equal to the function.
//!
//! Items are of any type: tokens with their columns, or bytes. Crates that read texts state their grammar by
//! `specs/Rules`, their readers by `specs/Reading`, and get from `proofs` that both agree, and that a reader refuses at
//! the first item with which nothing that the grammar derives goes on. Read `specs/Rules`, `specs/Reading`,
//! `specs/Fits` and `specs/Stops`, in this order; then `specs/Reads`, which is what a function of a reader's code
//! promises.
#![tactic(auto)]

mod bytes;
mod choice;
mod cursor;
mod many;
mod prefix;
mod refused;

pub use choice::Spelled;
pub use cursor::Cursor;
pub use many::{Reading, read_many};
pub use prefix::prefix_len;
pub use refused::Refused;
