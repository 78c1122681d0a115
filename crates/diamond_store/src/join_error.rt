//! Why no client joined.

/// Why no client joined.
#[derive(Clone, Copy, Debug, PartialEq, Eq)]
pub enum JoinError {
    /// So many clients' numbers were drawn, and none is left.
    Clients(u64),
    NoMemory,
}
