//! Runs a script of many clients in one thread: each line is read, done and answered before the next one is read. It stands between
//! the source and the sink of `dio_core` and the sessions of `session_core`, each over its client's view of a `local_world`;
//! `diamond_cli` calls it.
//!
//! Read `specs/Play.antt` first, which says what a script does, and then `KeepsPromises` of `specs/Script.antt`, which
//! says what a run promises at each status.
#![tactic(auto)]

mod laws;
mod lines;
mod replies;
mod script;
mod status;
mod stop;
mod words;
mod world;

pub use laws::{lines_are_over, lines_have_entries, scripts_stand};
pub use script::{run_counted, run_script, run_script_by};
pub use status::{NO_MEMORY, READ_FAULT, TOO_MANY_LINES, WHOLE, WRITE_FAULT};
pub use stop::MOST_LINES;
pub use words::LAST_CLIENT;
