//! What a session over a link goes on with from line to line.

use plain_data::Text;
use session_core::Session;
use std::alloc::Global;

/// What the lines of a session are done with.
#[derive(Drop)]
pub(crate) struct LineMeans<'p, P> {
    pub(crate) alloc: Global,
    /// Who makes the reruns of watches.
    pub(crate) reruns: &'p P,
}

/// A session that goes on over a link.
#[derive(Drop)]
pub(crate) struct Ongoing {
    pub(crate) session: Session,
    /// The text of the answers that are held back.
    pub(crate) held: Text,
}
