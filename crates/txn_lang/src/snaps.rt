//! Values that a run may rest on.

use plain_data::OrderedMap;
use rdt_types::{Address, Value};

/// The value of an address as it was at a number of a journal.
#[derive(Debug, Drop)]
pub struct Snap {
    pub base: u64,
    pub value: Value,
}

/// The values of some addresses, by rising address.
pub type Snaps = OrderedMap<Address, Snap>;
