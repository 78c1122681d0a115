//! Serializability, the theorem: a journal that grows by the commits of undisturbed attempts is the serial execution of its
//! requests. It stands above `docc_prepare`, whose laws are the step from one commit to the next.
//!
//! Read `specs/Serial.antt`: what a serial execution is, in the rules of the language alone; then `specs/Growing.antt`, the theorem;
//! and `specs/Holding.antt`, what a hold promises. There is no code in it, but for the laws.
#![tactic(auto)]

mod laws;

pub use laws::{
    aborts_have_a_clash, covered_is_not_aborted, grown_journals_are_serial, holds_outlast_appends,
    legal_journals_are_serial, observed_is_serial,
};
