//! A gate in the lock of each shard.

/// Is called inside a shard's lock, at each read, preparing and read at a number. A test watches or holds up threads there.
pub trait Gate {
    /// A thread has this shard's lock.
    fn at(&self, shard: u8);
}

/// Holds nobody up.
#[derive(Clone, Copy, Debug, Drop)]
pub struct Open;

impl Gate for Open {
    fn at(&self, _shard: u8) {}
}
