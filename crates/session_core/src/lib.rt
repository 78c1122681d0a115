//! Sessions over any backend: a session does the lines of one client. It reads what a line asks for, drives the client's attempt
//! and its watches by calls of a backend, and answers replies. It stands on `session_text` (the texts of lines and replies), on the
//! language (`txn_parse`, `txn_lang`), on `docc_prepare` (attempts, and what every backend promises) and on `client_watches`; a
//! script and a server cut input into lines, hand each to a session, and print what it answers.
//!
//! Read first `specs/LinePrograms` (what a line does, as a program of calls) and `specs/Verbs` (the verbs of attempts and looks, a
//! program a function of the code). `specs/LineLaws` says what every line keeps to, `specs/Explained` which answers a journal
//! explains, and `specs/Sessions` and `specs/LineTalks` what that makes of whole sessions.
#![tactic(auto)]

mod acting;
mod approach;
mod driving;
mod error;
mod event;
mod form;
mod laws;
mod limits;
mod line;
mod lines;
mod looking;
mod moved;
mod reading;
mod remembered;
mod session;
mod turn;
mod verbs;
mod waiting;
mod watches;
mod words;

pub use client_watches::ReplyList;
pub use error::SessionError;
pub use laws::{
    done_lines_are_explained, explained_stays, lines_answer_for_themselves, lines_are_explained,
    lines_are_safe, lines_ask_few, most_calls_are_enough, sessions_go_on, tries_are_few,
    verbs_are_forms,
};
pub use limits::{MOST_CALLS, MOST_EVENTS};
pub use line::Line;
pub use reading::read_line;
pub use session::Session;
pub use turn::Turn;
pub use words::{is_quiet, trimmed_end, trimmed_start};
