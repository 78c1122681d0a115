//! What a read comes to.

use conflict_table::Obs;
use rdt_types::Item;

/// What a read of a body comes to.
#[derive(Debug, Drop, PartialEq, Eq)]
pub enum Asked {
    /// Its answer, and what was observed of the value for it, if anything was.
    Answered(Item, Option<Obs>),
    /// The value at the address is wanted.
    Need,
}
