//! Runs the load that a number makes, and counts what comes of it: the script of `load_script` is run by `script_runner` in memory,
//! and its line goes to a sink. `diamond_cli` calls it.
//!
//! Read `Loads` of `specs/Loads.antt` first, which says what is promised at each status.
#![tactic(auto)]

mod loading;

pub use loading::run_load;
