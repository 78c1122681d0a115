//! Why a reader stops.

/// The item ahead doesn't fit, or there is none. A reader that refuses leaves that item at the front.
#[derive(Clone, Copy, Debug, PartialEq, Eq)]
pub struct Refused;
