//! Tests of the crates of texts: predictive_parsing, dtext, session_text, cli_words, txn_grammar, txn_parse, txn_print and
//! load_script. Here are values that no text shows; the texts themselves, with what each comes to, are rows of
//! crates/text_cases/stdin.
#![tactic(auto)]

#[cfg(test)]
mod bodies;
#[cfg(test)]
mod cursors;
#[cfg(test)]
mod loads;
#[cfg(test)]
mod parts;
#[cfg(test)]
mod replies;
#[cfg(test)]
mod tokens;
#[cfg(test)]
mod words;
