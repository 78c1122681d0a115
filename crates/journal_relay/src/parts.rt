//! Some of a tail's changes, as a tail.

ghost use Rattle.std.specs.Prelude.{◌≡◌, ◌++◌, ◌≤◌, OnOk, IfOk};
ghost use Rattle.rdt_types.specs.declared.limits.TheConstants.{LEAST_SHARDS, MOST_SHARDS};
ghost use Rattle.change_feed.specs.Lists.{listed};
ghost use Rattle.change_feed.specs.Tails.{IsTail};
ghost use Rattle.journal_core.specs.Changes.{of_shard, of_address};
ghost use Rattle.journal_core.specs.Tails.{HasAll};

use change_feed::{Change, ChangeList, Changes, Tail};
use journal_core::copies_of_address;
use plain_data::copied;
use rdt_types::{Address, shard_of};
use std::alloc::{AllocError, Global};

/// Adds copies of those of some changes that are in a shard.
fn add_in_shard(
    list: &mut ChangeList,
    changes: &[Change],
    shards: u8,
    shard: u8,
) -> Result<(), AllocError>
    requires { (LEAST_SHARDS ≤ shards) × (shards ≤ MOST_SHARDS) }
    ensures { OnOk result (list.new ≡ list.old ++ of_shard shards shard changes.now) }
{
    for change in changes {
        if shard_of(&change.address, shards) == shard {
            list.push(copied(change)?)?;
        }
    }
    Ok(())
}

/// Copies of the changes in a shard, in order.
fn copies_in_shard(
    alloc: Global,
    mut changes: Changes<'_>,
    shards: u8,
    shard: u8,
) -> Result<ChangeList, AllocError>
    requires { (LEAST_SHARDS ≤ shards) × (shards ≤ MOST_SHARDS) }
    ensures { IfOk result (λ list. list ≡ of_shard shards shard (listed changes.entry)) }
{
    let mut list = ChangeList::new(alloc);
    while let Some(piece) = changes.next_piece() {
        add_in_shard(&mut list, piece, shards, shard)?;
    }
    Ok(list)
}

/// The changes of a tail that are in one of so many shards. It goes through all of them, and copies these.
pub fn part_in_shard(alloc: Global, tail: &Tail, shards: u8, shard: u8) -> Result<Tail, AllocError>
    requires { (LEAST_SHARDS ≤ shards) × (shards ≤ MOST_SHARDS) }
    ensures { IfOk result (HasAll tail.now.from tail.now.to (of_shard shards shard tail.now.changes)) }
{
    let (from, to) = (tail.from, tail.to);
    let changes = copies_in_shard(alloc, tail.changes.lend(), shards, shard)?;
    Ok(Tail { from, to, changes })
}

/// The changes of a tail that are at an address. It goes through all of them, and copies these.
pub fn part_at(alloc: Global, tail: &Tail, address: &Address) -> Result<Tail, AllocError>
    ensures { IfOk result (HasAll tail.now.from tail.now.to (of_address address.now tail.now.changes)) }
{
    let (from, to) = (tail.from, tail.to);
    let changes = copies_of_address(alloc, tail.changes.lend(), address)?;
    Ok(Tail { from, to, changes })
}
