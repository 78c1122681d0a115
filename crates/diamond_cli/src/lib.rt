//! The top call of Diamond: it reads the command's words, runs the command over a source, a sink, a disk and a
//! listener, and answers the status with which the program ends.
//!
//! It stands above all other libraries; the program `diamond` makes the real objects and calls it. Read first the
//! contract of [`diamond`], and then the definitions that it cites: `Forms` of `cli_words`, `Play` and `Script` of
//! `script_runner`, and `Journals` of `txn_lang`.
#![tactic(auto)]

mod audited;
mod file;
mod line;
mod remote;
mod run;
mod serve;
mod service;
mod sessions;
mod top;

pub use audited::BROKEN;
pub use file::{DISK_FAULT, NOT_JOURNAL};
pub use line::LISTENER_FAULT;
pub use remote::NO_LINK;
pub use remote_command::{BROKEN_LINK, LINK_FAULT};
pub use script_runner::{NO_MEMORY, WRITE_FAULT};
pub use top::{BAD_WORDS, diamond};
