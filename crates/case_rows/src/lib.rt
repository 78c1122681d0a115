//! Cases as text: the rows in which they are written, what each of them says, and how what came of it differs.
//!
//! Nothing here calls the top call of Diamond: `script_cases` does, and hands what came of it back. What asks for no top call is
//! done here: files are recovered, and lists of commits are audited. A module has a kind of cases.
#![tactic(auto)]

pub mod audits;
pub mod files;
mod quoted;
pub mod scripts;

pub use quoted::CaseError;
