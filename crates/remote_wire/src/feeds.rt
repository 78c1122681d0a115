//! Feeds from what was read of them.

ghost use Rattle.std.specs.Prelude.{◌≡◌, IfOk};
ghost use Rattle.remote_wire.specs.Answers.{changes_at};
ghost use Rattle.record_code.specs.code.Reads.{Reads};

use change_feed::Feed;
use commit_file::Version;
use rdt_types::{DeltaMap, ItemList, Outcome};
use record_code::{FieldError, read_deltas};
use std::alloc::{AllocError, Global};

/// The feed of these changes.
pub fn feed_of(alloc: Global, to: u64, changes: &DeltaMap) -> Result<Feed, AllocError>
    ensures { IfOk result (λ feed. feed ≡ record { to = to; changes = changes.now }) }
{
    let mut feed = Feed::new(alloc, to);
    for (address, delta) in changes.as_slice() {
        feed.add(address, delta)?;
    }
    Ok(feed)
}

/// Reads deltas by rising addresses, as a body leaves them that runs to its end.
pub fn take_changes(alloc: Global, bytes: &[u8]) -> Result<(DeltaMap, &[u8]), FieldError>
    ensures { Reads (λ read. (read.0, read.1.now)) result (changes_at bytes.now) }
{
    let outcome = Outcome::Ok(ItemList::new(alloc));
    read_deltas(alloc, Version::Two, &outcome, bytes)
}
