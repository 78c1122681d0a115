//! What a run goes on.

use crate::environment::Environment;
use std::alloc::Global;
use txn_lang::Snaps;

/// What is known of the values that a run reads.
#[derive(Clone, Copy)]
pub(crate) struct Known<'a> {
    pub alloc: Global,
    pub snaps: &'a Snaps,
}

/// Where an expression runs: on which values, and where which names are bound.
#[derive(Clone, Copy)]
pub(crate) struct Here<'a> {
    pub alloc: Global,
    pub snaps: &'a Snaps,
    pub names: &'a Environment,
}
