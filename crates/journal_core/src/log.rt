//! The commits, and their changes beside them, by shard: a list for each, in the journal's order.

ghost use Rattle.std.specs.Prelude.{◌≡◌, ◌+◌, ◌<◌, ◌≤◌, [], ◌∷◌, ◌++◌, length, OnOk, OnErr, IfOk};
ghost use Rattle.rdt_types.specs.declared.limits.TheConstants.{LEAST_SHARDS, MOST_SHARDS};
ghost use Rattle.change_feed.specs.Lists.{listed};
ghost use Rattle.journal_core.specs.Changes as spec;
ghost use Rattle.journal_core.specs.Pairs.{AreNumbered};
ghost use Rattle.journal_core.specs.code.Rising.{Rises};
ghost use Rattle.journal_core.specs.Kinds.{AreOfTheirKinds, HasKinds};
ghost use Rattle.journal_core.specs.code.ByShard.{list_at, room_at, HasRoom, AreByShard, HasGrown, HasPut, HasAdded};
ghost use Rattle.journal_core.specs.code.Logs as logs;
ghost use Rattle.journal_core.specs.code.Segments.{IsWhole};

use crate::copying::changes_by;
use crate::segments::Segments;
use change_feed::{Change, Changes};
use plain_data::Sequence;
use rdt_types::shard_of;
use std::alloc::{AllocError, Global};
use std::marker::Model;
use txn_lang::{Commit, CommitList};

/// The commits of a journal. Beside them stand their changes, a list for each shard in order, in which a number is found by
/// halving.
#[derive(Debug, Drop)]
pub(crate) struct Log {
    commits: Vec<Commit>,
    lists: Vec<Segments>,
    shards: u8,
    room: usize,
}

impl Model for Log {
    ghost use Rattle.journal_core.specs.code.Logs as logs;
    ghost use Rattle.txn_lang.specs.contracts.commit.Commit as commit;

    ghost Value = { logs.Log };

    ghost coded = { logs.log_code commit.the_row.coded };

    ghost view = { λ l. record { commits = l.commits.items; shards = l.shards; room = l.room } };

    ghost invariant = { λ l. logs.Keeps l.commits.items l.shards l.lists.items (logs.room_for_more l.commits) l.room };
}

impl Log {
    /// These commits, with copies of their changes by so many shards.
    pub(crate) fn of(alloc: Global, commits: CommitList, shards: u8) -> Result<Log, AllocError>
        requires numbered { AreNumbered commits }
        requires kinds { HasKinds commits }
        requires few { (LEAST_SHARDS ≤ shards) × (shards ≤ MOST_SHARDS) }
        ensures commits { IfOk result (λ log. log.commits ≡ commits) }
        ensures shards { IfOk result (λ log. log.shards ≡ shards) }
    {
        let lists = lists_of(alloc, commits.as_slice(), shards)?;
        Ok(Log {
            commits: commits.into_vec(),
            lists,
            shards,
            room: 0,
        })
    }

    /// The commits.
    pub(crate) fn commits(&self) -> &[Commit]
        ensures commits { result.now ≡ self.now.commits }
        ensures numbered { AreNumbered self.now.commits }
        ensures kinds { HasKinds self.now.commits }
    {
        self.commits.as_slice()
    }

    /// By how many shards the changes are kept.
    pub(crate) fn shards(&self) -> u8
        ensures shards { result ≡ self.now.shards }
        ensures few { (LEAST_SHARDS ≤ result) × (result ≤ MOST_SHARDS) }
    {
        self.shards
    }

    /// The changes in a shard, in order.
    pub(crate) fn in_shard(&self, shard: u8) -> Changes<'_>
        ensures changes { listed result ≡ spec.of_shard self.now.shards shard (logs.changes_in self.now) }
        ensures rises { Rises 0 (listed result) }
        ensures whole { IsWhole result }
        ensures numbered { AreNumbered self.now.commits }
    {
        in_shard(self.lists.as_slice(), shard)
    }

    /// The commits as a list. It is never refused for want of memory.
    pub(crate) fn into_commits(self) -> CommitList
        ensures { result ≡ self.commits }
    {
        let Log { commits, .. } = self;
        Sequence::from_vec(commits)
    }

    /// Takes memory for one commit more and so many changes of it, fewer than the number.
    pub(crate) fn reserve(&mut self, room: usize) -> Result<(), AllocError>
        ensures commits { self.new.commits ≡ self.old.commits }
        ensures shards { self.new.shards ≡ self.old.shards }
        ensures kept { self.old.room ≤ self.new.room }
        ensures ok { OnOk result (room ≤ self.new.room) }
        ensures err { OnErr result (self.new ≡ self.old) }
    {
        self.commits.reserve(room)?;
        reserve_each(&mut self.lists, room)?;
        self.room = self.room.max(room);
        Ok(())
    }

    /// Adds the next commit, with its changes, for which there is memory.
    pub(crate) fn add(&mut self, commit: Commit, changes: Sequence<Change>)
        requires number { commit.number ≡ length self.old.commits + 1 }
        requires kinds { AreOfTheirKinds commit.deltas }
        requires changes { changes ≡ spec.changes_of commit }
        requires room { length changes < self.old.room }
        ensures { self.new ≡ record self.old { commits = self.old.commits ++ commit ∷ []; room = 0 } }
    {
        self.room = 0;
        self.commits.push_reserved(commit);
        add_each(&mut self.lists, self.shards, changes.into_vec());
    }
}

/// The changes in the list of a shard.
fn in_shard(lists: &[Segments], shard: u8) -> Changes<'_>
    ensures changes { listed result ≡ list_at lists.now shard }
    ensures whole { IsWhole result }
{
    match lists.get(shard as usize) {
        Some(list) => list.lend(),
        None => Changes {
            skipped: 0,
            sealed: &[],
            last: &[],
        },
    }
}

/// Takes memory for some more changes in the list at a place.
fn reserve_at(lists: &mut Vec<Segments>, place: usize, room: usize) -> Result<(), AllocError>
    requires { place < length lists.old.items }
    ensures grown { HasGrown lists.old.items lists.new.items }
    ensures ok { OnOk result (room ≤ room_at lists.new.items place) }
{
    lists[place].reserve(room)
}

/// Takes memory for some more changes in each list.
fn reserve_each(lists: &mut Vec<Segments>, room: usize) -> Result<(), AllocError>
    ensures grown { HasGrown lists.old.items lists.new.items }
    ensures ok { OnOk result (HasRoom room lists.new.items) }
{
    for place in 0..lists.len() {
        reserve_at(lists, place, room)?;
    }
    Ok(())
}

/// Adds a change to the list at a place, for which there is memory.
fn push_at(lists: &mut Vec<Segments>, place: usize, change: Change)
    requires within { place < length lists.old.items }
    requires room { 0 < room_at lists.old.items place }
    ensures { HasPut place change lists.old.items lists.new.items }
{
    lists[place].push(change);
}

/// Adds changes, each to the list of its shard, for which there is memory.
fn add_each(lists: &mut Vec<Segments>, shards: u8, changes: Vec<Change>)
    requires shards { (LEAST_SHARDS ≤ shards) × (shards ≤ MOST_SHARDS) }
    requires as_many { length lists.old.items ≡ shards }
    requires room { HasRoom (length changes.items) lists.old.items }
    ensures { HasAdded shards changes.items lists.old.items lists.new.items }
{
    for change in changes {
        let shard = shard_of(&change.address, shards);
        push_at(lists, shard as usize, change);
    }
}

/// A list without changes for each shard.
fn empty_lists(alloc: Global, shards: u8) -> Result<Vec<Segments>, AllocError>
    ensures { IfOk result (λ lists. AreByShard shards [] lists.items) }
{
    let mut lists = Vec::new(alloc);
    for _ in 0..shards {
        lists.push(Segments::new(alloc))?;
    }
    Ok(lists)
}

/// Copies of the changes of commits, by shard.
fn lists_of(alloc: Global, commits: &[Commit], shards: u8) -> Result<Vec<Segments>, AllocError>
    requires { (LEAST_SHARDS ≤ shards) × (shards ≤ MOST_SHARDS) }
    ensures { IfOk result (λ lists. AreByShard shards (spec.changes commits.now) lists.items) }
{
    let mut lists = empty_lists(alloc, shards)?;
    for commit in commits {
        let changes = changes_by(alloc, commit.number, commit.deltas.as_slice())?;
        reserve_each(&mut lists, changes.len())?;
        add_each(&mut lists, shards, changes.into_vec());
    }
    Ok(lists)
}
