//! Why bytes are not read as a request or an answer.

/// Why bytes are not read as a request or an answer.
#[derive(Clone, Copy, Debug, PartialEq, Eq)]
pub enum WireError {
    /// They are no request, or no answer to this request.
    BadWire,
    NoMemory,
}
