//! The changes of a journal's first commits, beside the journal.

ghost use Rattle.std.specs.Prelude.{◌≡◌, ◌≤◌, ◌++◌, length, OnOk, OnErr, IfOk};
ghost use Rattle.change_feed.specs.Lists.{listed};
ghost use Rattle.txn_lang.specs.States.{Journal};
ghost use Rattle.journal_core.specs.Changes.{changes};
ghost use Rattle.journal_core.specs.Changes as journals;
ghost use Rattle.journal_core.specs.Tails.{HasAll};
ghost use Rattle.journal_core.specs.code.Rising.{Rises};
ghost use Rattle.journal_relay.specs.Relays as spec;
ghost use Rattle.journal_relay.specs.Relays.{Relays};

use change_feed::{Change, ChangeList, Changes, Tail};
use journal_core::{Segments, between};
use plain_data::Sequence;
use std::alloc::{AllocError, Global};
use std::marker::Model;

/// Copies of changes, in order.
fn copies(alloc: Global, mut changes: Changes<'_>) -> Result<Sequence<Change>, AllocError>
    ensures { IfOk result (λ list. list ≡ listed changes.entry) }
{
    let mut list = Sequence::new(alloc);
    while let Some(piece) = changes.next_piece() {
        list.extend_cloned(piece)?;
    }
    Ok(list)
}

/// Adds changes for which there is memory.
fn push_all(all: &mut Segments, changes: Vec<Change>)
    requires { length changes.items ≤ all.old.1 }
    ensures { all.new.0 ≡ all.old.0 ++ changes.items }
{
    for change in changes {
        all.push(change);
    }
}

/// The changes that are lent between two numbers, as a list that shares their segments.
fn shared_between(
    alloc: Global,
    all: &Segments,
    from: u64,
    to: u64,
) -> Result<ChangeList, AllocError>
    requires { Rises 0 all.now.0 }
    ensures { IfOk result (λ list. list ≡ journals.between from to all.now.0) }
{
    between(all.lend(), from, to).share(alloc)
}

/// The changes of a journal's first commits, in its order. They stand in segments, which the tails share.
#[derive(Debug, Drop)]
pub struct Relay {
    alloc: Global,
    to: u64,
    all: Segments,
}

impl Model for Relay {
    ghost use Rattle.change_feed.specs.contracts.change.Change as change;
    ghost use Rattle.change_feed.specs.Tails.{IsTail};
    ghost use Rattle.journal_relay.specs.Relays.{Relayed, relayed_code};

    ghost Value = { Relayed };

    ghost coded = { relayed_code change.the_row.coded };

    ghost view = { λ r. record { to = r.to; changes = r.all.0 } };

    ghost invariant = { λ r. IsTail 0 r.to r.all.0 };
}

impl Relay {
    /// The changes of no commits. It is never refused for want of memory.
    pub fn new(alloc: Global) -> Relay
        ensures { result ≡ spec.begun }
    {
        Relay {
            alloc,
            to: 0,
            all: Segments::new(alloc),
        }
    }

    /// Of how many commits it has the changes.
    pub fn to(&self) -> u64
        ensures { result ≡ self.now.to }
    {
        self.to
    }

    /// Adds copies of a tail's changes, which are to be those of the next commits.
    pub fn follow(&mut self, tail: &Tail) -> Result<(), AllocError>
        requires { tail.now.from ≡ self.old.to }
        ensures ok { OnOk result (self.new ≡ spec.followed self.old tail.now) }
        ensures err { OnErr result (self.new ≡ self.old) }
    {
        let more = copies(self.alloc, tail.changes.lend())?;
        self.all.reserve(more.len())?;
        push_all(&mut self.all, more.into_vec());
        self.to = tail.to;
        Ok(())
    }

    /// All changes of commits past one number and up to another, of each journal for which it stands. It goes through none but
    /// a last piece.
    pub fn tail_all(&self, from: u64, to: u64) -> Result<Tail, AllocError>
        requires order { from ≤ to }
        requires within { to ≤ self.now.to }
        ensures { (journal : Journal) → Relays journal self.now → IfOk result (HasAll from to (journals.between from to (changes journal))) }
    {
        let changes = shared_between(self.alloc, &self.all, from, to)?;
        Ok(Tail { from, to, changes })
    }
}
