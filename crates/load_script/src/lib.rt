//! The load that a number makes: a script of clients that contend, and the line of what came of it. That line is fixed, so two
//! machines that run the script can be compared, and so can two builds.
//!
//! Nothing is run here: `load_runner` does that. Read `specs/LoadText.antt` first, which says what the script is, and then
//! `specs/LoadLine.antt`, which says what is counted.
#![tactic(auto)]

mod counting;
mod line;
mod text;

pub use line::load_line;
pub use text::load_text;
