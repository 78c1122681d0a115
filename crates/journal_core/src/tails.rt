//! Tails of a journal's changes.

ghost use Rattle.std.specs.Prelude.{◌≡◌, ◌≤◌, length, take, drop, IfOk};
ghost use Rattle.change_feed.specs.Lists.{listed};
ghost use Rattle.change_feed.specs.Tails.{IsTail};
ghost use Rattle.journal_core.specs.Changes as spec;
ghost use Rattle.journal_core.specs.Pairs.{AreNumbered};
ghost use Rattle.journal_core.specs.Tails.{HasAll, HasAllIn, HasAllAt};

use crate::copying::{all_changes, copies_of_address};
use crate::log::Log;
use crate::walk::between;
use change_feed::{ChangeList, Changes, Tail};
use rdt_types::{Address, shard_of};
use std::alloc::{AllocError, Global};
use txn_lang::Commit;

/// The changes as a tail.
fn as_tail(from: u64, to: u64, changes: ChangeList) -> Tail
    requires { IsTail from to changes }
    ensures { HasAll from to changes result }
{
    Tail { from, to, changes }
}

/// The commits past one number and up to another.
fn commits_between(log: &Log, from: u64, to: u64) -> &[Commit]
    requires order { from ≤ to }
    requires within { to ≤ length log.now.commits }
    ensures numbered { AreNumbered log.now.commits }
    ensures commits { result.now ≡ drop from (take to log.now.commits) }
{
    let up_to = &log.commits()[..to as usize];
    &up_to[from as usize..]
}

/// Copies of the changes between two numbers.
fn changes_between(alloc: Global, log: &Log, from: u64, to: u64) -> Result<ChangeList, AllocError>
    requires order { from ≤ to }
    requires within { to ≤ length log.now.commits }
    ensures numbered { AreNumbered log.now.commits }
    ensures changes { IfOk result (λ list. list ≡ spec.between from to (spec.changes log.now.commits)) }
{
    let changes = all_changes(alloc, commits_between(log, from, to))?;
    Ok(ChangeList::from_vec(changes))
}

/// The changes in a shard between two numbers.
#[inline(always)]
pub(crate) fn between_in_shard(log: &Log, shard: u8, from: u64, to: u64) -> Changes<'_>
    ensures numbered { AreNumbered log.now.commits }
    ensures changes { listed result ≡ spec.between_in log.now.shards shard from to log.now.commits }
{
    between(log.in_shard(shard), from, to)
}

/// Copies of the changes at an address between two numbers.
fn between_at(
    alloc: Global,
    log: &Log,
    address: &Address,
    from: u64,
    to: u64,
) -> Result<ChangeList, AllocError>
    ensures numbered { AreNumbered log.now.commits }
    ensures changes { IfOk result (λ list. list ≡ spec.between_at address.now from to log.now.commits) }
{
    let shard = shard_of(address, log.shards());
    copies_of_address(alloc, between_in_shard(log, shard, from, to), address)
}

/// The tail of all changes.
pub(crate) fn tail_of_all(alloc: Global, log: &Log, from: u64, to: u64) -> Result<Tail, AllocError>
    requires order { from ≤ to }
    requires within { to ≤ length log.now.commits }
    ensures { IfOk result (HasAll from to (spec.between from to (spec.changes log.now.commits))) }
{
    let changes = changes_between(alloc, log, from, to)?;
    Ok(as_tail(from, to, changes))
}

/// The tail of the changes in a shard, which shares segments.
pub(crate) fn tail_of_shard(
    alloc: Global,
    log: &Log,
    shard: u8,
    from: u64,
    to: u64,
) -> Result<Tail, AllocError>
    requires { from ≤ to }
    ensures { IfOk result (HasAllIn log.now.shards shard from to log.now.commits) }
{
    let changes = between_in_shard(log, shard, from, to).share(alloc)?;
    Ok(as_tail(from, to, changes))
}

/// The tail of the changes at an address.
pub(crate) fn tail_of_address(
    alloc: Global,
    log: &Log,
    address: &Address,
    from: u64,
    to: u64,
) -> Result<Tail, AllocError>
    requires { from ≤ to }
    ensures { IfOk result (HasAllAt address.now from to log.now.commits) }
{
    let changes = between_at(alloc, log, address, from, to)?;
    Ok(as_tail(from, to, changes))
}
