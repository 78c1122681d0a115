//! The tokens and the grammar of transaction bodies: what tokens a text has, which tokens are a body, and the column at
//! which a text stops being one. It stands on `txn_trees`, whose trees bodies are, and on `dtext`, whose rule texts in
//! quotes follow. Journals cite it; the parser (`txn_parse`) is proved equal to it.
//!
//! Read first `specs/Lexer` (the tokens of a text), `specs/Grammar` (the rules, in the order of the grammar, with the
//! tables of `specs/Tokens`) and `specs/Parsed` (the body of a text, and the column where there is none). `laws` ties the
//! grammar, a relation, to the function by which parsers are proved. The code here is what is below a parser: `tokens`,
//! and the tables by which a token is asked what it is.
#![tactic(auto)]

mod form;
mod laws;
mod lexer;
mod limit;
mod meaning;
mod number;
mod operation;
mod rank;
mod symbol;
mod target;
mod token;

pub use form::{Leaf, Nesting, Opener, Simple};
pub use laws::{blanks_at_the_end, parsed_is_body, syntax_columns};
pub use lexer::tokens;
pub use limit::{DEEPEST, LONGEST_NAME};
pub use meaning::{
    is_symbol, kind_at, leaf_of, nesting_of, number_of, opener_of, operator_at, read_at,
    relation_at, simple_of, truth_at, write_at,
};
pub use operation::{Operation, READS, WRITES};
pub use rank::Rank;
pub use symbol::{MARKS, Symbol, WORDS};
pub use target::Target;
pub use token::{Lexeme, Spot, Token};
