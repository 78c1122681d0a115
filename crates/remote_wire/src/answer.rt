//! What the store's side answers.

use abort_witness::Witness;
use change_feed::Feed;
use rdt_types::Value;

/// An answer, beside the number of commits that the client has seen with it.
#[derive(Drop)]
pub struct WireAnswer {
    pub seen: u64,
    pub given: Given,
}

/// What an answer gives.
#[derive(Drop)]
pub enum Given {
    /// The client's number, and how many shards the store has.
    Hello(u32, u8),
    /// That it was done.
    Done,
    /// The base, and the value there.
    Read(u64, Value),
    /// The front of the shard that was prepared.
    Front(u64),
    /// The number of the commit.
    Number(u64),
    /// The value after the number of commits that was named.
    Value(Value),
    /// What has changed where the client has subscribed.
    Feed(Feed),
    /// The number that is no longer kept, and the horizon.
    Late(u64, u64),
    /// Why the commit is refused.
    Clash(Witness),
    /// How many commits the journal takes.
    Full(u32),
    /// The disk has failed.
    Disk,
    /// Whose hold bars the commit, and the number of that hold.
    Held(u32, u64),
}
