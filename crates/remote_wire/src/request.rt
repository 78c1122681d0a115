//! What a client far from the store asks it.

use abort_witness::BasedList;
use plain_data::{ExactClone, Sequence, Text};
use rdt_types::Address;

/// An address, and the number of commits after which its value was read.
#[derive(Clone, Debug, Drop, PartialEq, Eq)]
pub struct Base {
    pub address: Address,
    pub base: u64,
}

impl ExactClone for Base {
    ghost use Rattle.std.proofs.Common.{rules};

    ghost exact = { Prim.search rules };
}

/// Addresses with their bases.
pub type BaseList = Sequence<Base>;

/// What a client asks. Each but the first stands for one call of the store's side.
#[derive(Debug, Drop)]
pub enum Request {
    /// Who the client is, and how many shards the store has.
    Hello,
    Refresh,
    Read(Address),
    /// Prepares a shard, with what was observed in it.
    Prepare(u8, BasedList),
    /// Appends what the body does: the client's number of this commit, the body's text, and the base of each observed
    /// address. The store's side runs the body again.
    Append(u64, Text, BaseList),
    /// The value at an address after so many commits.
    ReadAt(Address, u64),
    Subscribe(Address),
    Unsubscribe(Address),
    Take,
    Wait,
}
