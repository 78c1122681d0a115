//! What is kept of a client's watches.

use client_cache::Cache;
use plain_data::Sequence;
use rdt_types::Address;
use rerun_driver::Driver;
use session_text::Reply;

/// Replies, one after another.
pub type ReplyList = Sequence<Reply>;

/// Addresses, one after another.
pub type AddressList = Sequence<Address>;

/// The watches of one client, and the values on which they run. Changes at the address of each value that is held are told
/// by the client's backend.
#[derive(Drop)]
pub struct Watching {
    pub watches: Driver,
    /// Values as of the commit up to which changes were taken.
    pub cache: Cache,
    /// Addresses that some watch observed, or that some run asked for, of which a watch may observe none any longer.
    pub loose: AddressList,
}
