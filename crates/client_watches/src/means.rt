//! What a line of watches runs with.

use std::alloc::Global;

/// What a line of watches runs with: its memory, and who makes reruns.
#[derive(Clone, Copy)]
pub struct Means<'r, R> {
    pub alloc: Global,
    pub reruns: &'r R,
}
