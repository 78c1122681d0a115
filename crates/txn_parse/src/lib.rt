//! The parser of transaction bodies: a text's one tree with its columns, or the column at which it stops being a body.
//! It stands on `txn_grammar`, which says what tokens a text has and which tokens are a body; what checks and runs bodies
//! stands on the trees that come out of here.
//!
//! [`parse`] is the only call. A text is cut into tokens (`txn_grammar::tokens`); a cursor over them goes through
//! `statement` and `grammar` (expressions), one function a rule, each proved equal to its reader in `txn_grammar`'s
//! `specs/code/Reader`; `whole` turns the token at which the readers stop into a column. Read first `specs/Grammar` and
//! `specs/Parsed` of `txn_grammar`: by these, and by no reader, is `parse` to be judged.
#![tactic(auto)]

mod chain;
mod grammar;
mod place;
mod statement;
mod token;
mod tree;
mod whole;

pub use whole::{ParseError, parse};

/// Why a reader stops: at the token ahead, or for want of memory.
pub(crate) type Stop = plain_data::OrNoMemory<predictive_parsing::Refused>;
