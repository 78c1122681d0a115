//! What the threads of a serving share.

use diamond_store::{Gate, Store};
use history_lock::Naming;
use journal_core::Keep;
use std::alloc::Global;

/// What all sessions of a serving are served with, by whichever thread.
#[derive(Drop)]
pub(crate) struct Shared<'e, K: Keep, G: Gate + Drop, N: Naming, S, R> {
    pub(crate) rt: &'e R,
    pub(crate) alloc: Global,
    pub(crate) store: &'e Store<K, G, N>,
    pub(crate) way: &'e S,
}
