//! What a run keeps as it goes on.

use crate::observed::Observed;
use write_buffer::Buffer;

/// What a run has written, as deltas, and what it has observed.
#[derive(Drop)]
pub(crate) struct Kept {
    pub buffer: Buffer,
    pub observations: Observed,
}
