//! Reads.

use plain_data::Text;

/// A read of the value at an address.
#[derive(Clone, Debug, Drop, PartialEq, Eq)]
pub enum ReadOp {
    /// The whole of a bool, a counter, a text or a peak.
    Get,
    /// Whether an element is in a set.
    SetHas(Text),
    /// The elements of a set, rising.
    SetAll,
    /// Whether a field is in a hash.
    HashHas(Text),
    /// The text at a field of a hash, or an empty one where the field is absent.
    HashGet(Text),
    /// The fields of a hash, rising.
    HashFields,
    /// The item at a place of a list, counted from 0, or an empty one outside the list.
    ListAt(i64),
    /// The items of a list.
    ListAll,
    /// Whether a peak is above a number.
    PeakOver(i64),
}
