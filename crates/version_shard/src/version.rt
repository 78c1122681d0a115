//! One version of a value.

use rdt_types::Delta;

/// What a commit changed at an address: the commit's number, and its delta there. The value after it is what the delta makes
/// of the value before.
#[derive(Debug, Drop)]
pub struct Version {
    pub number: u64,
    pub delta: Delta,
}
