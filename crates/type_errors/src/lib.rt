//! Which column is told of a body that isn't well typed: a relation in the rules' own words, and the law that the checker's function
//! finds exactly that. It stands above `txn_lang`, which has the rules and the checker.
//!
//! Read `specs/Failing.antt`: what each node asks of its operands, a row a node, and where a body fails. `specs/Examples.antt` has
//! bodies with their columns. There is no code in it, but for the law.
#![tactic(auto)]

mod laws;

pub use laws::type_errors_are_first;
