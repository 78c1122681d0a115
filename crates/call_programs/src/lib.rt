//! What a client does over a backend, as data: a program ends with a value, asks a call and goes on with its answer, or is stuck. It
//! stands on the calls and the backends of `docc_prepare`; what a session's line does is to be said by programs.
//!
//! Read `specs/Programs.antt` first: what a program is, how one is done and stops, and `Always`, which says every law of one.
//! `specs/Safe.antt` says what a program owes a backend, and `specs/Played.antt` what it comes to over the store of one thread.
//! There is no code in it, but for the laws.
#![tactic(auto)]

mod laws;

pub use laws::{faults_are_counted, programs_are_played, safe_programs_end};
