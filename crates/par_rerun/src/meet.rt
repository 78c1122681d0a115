//! Who is told of each rerun before it is made.

/// Is told of each rerun before it is made.
pub trait Meet {
    /// Is called in the thread that is to run a watch, with the watch's place in the list.
    fn at(&self, place: u32);
}

/// Nobody is told.
#[derive(Clone, Copy)]
pub struct NoMeet;

impl Meet for NoMeet {
    fn at(&self, _: u32) {}
}
