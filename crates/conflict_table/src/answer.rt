//! What observations answer.

use plain_data::{ExactClone, Text, TextMap, TextSet};
use rdt_types::TextList;

/// What an observation answers of a value.
#[derive(Clone, Debug, Drop, PartialEq, Eq)]
pub enum Answer {
    /// The whole of a bool, whether an element is in a set, or whether a peak is above a number.
    Bool(bool),
    /// The whole of a counter.
    Counter(i64),
    /// The whole of a text.
    Text(Text),
    /// What stands at a field of a hash or at a place of a list, if anything.
    Maybe(Option<Text>),
    /// The whole of a set.
    Set(TextSet),
    /// The whole of a hash.
    Hash(TextMap<Text>),
    /// The whole of a list.
    List(TextList),
    /// The whole of a peak.
    Peak(i64),
}
