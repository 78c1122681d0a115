//! Changes kept in segments.

ghost use Rattle.std.specs.Prelude.{◌≡◌, ◌+◌, ◌<◌, ◌≤◌, [], ◌∷◌, ◌++◌, length, OnOk};
ghost use Rattle.change_feed.specs.Lists.{listed};
ghost use Rattle.journal_core.specs.code.Segments.{HaveChanges, IsWhole, room, all_in};

use change_feed::{Change, Changes, Segment};
use std::alloc::{AllocError, Global};
use std::marker::Model;
use std::mem;

/// With how many changes a segment is full.
const SEGMENT: usize = 64;

/// Seals the changes of the last segment, and opens another with memory for some more, and for as many as there was. It gets
/// memory for a full segment besides, so that it need not grow, and a sealed one has little to spare. For want of memory they are
/// as before.
fn seal(
    alloc: Global,
    sealed: &mut Vec<Segment>,
    last: &mut Vec<Change>,
    more: usize,
) -> Result<(), AllocError>
    requires some { 0 < length last.old.items }
    requires have_changes { HaveChanges sealed.old.items }
    ensures items { all_in sealed.new.items last.new.items ≡ all_in sealed.old.items last.old.items }
    ensures have_changes { HaveChanges sealed.new.items }
    ensures kept { room last.old ≤ room last.new }
    ensures ok { OnOk result (more ≤ room last.new) }
{
    sealed.reserve(1)?;
    let room = more.max(last.capacity() - last.len());
    let next = Vec::with_capacity(alloc, room.saturating_add(SEGMENT))?;
    match Segment::seal(mem::replace(last, next)) {
        Ok(segment) => {
            let pushed = sealed.push(segment);
            prove!(pushed.is_ok());
            Ok(())
        }
        Err(failed) => {
            *last = failed.value;
            Err(AllocError)
        }
    }
}

/// Changes in order, and for how many more there is memory. Contracts see the pair of both. Those in sealed segments don't
/// change any more, and are shared with whoever follows them.
#[derive(Debug, Drop)]
pub struct Segments {
    alloc: Global,
    sealed: Vec<Segment>,
    last: Vec<Change>,
}

impl Model for Segments {
    ghost use Rattle.std.specs.Prelude.{List, ℕ, ◌++◌};
    ghost use Rattle.std.specs.Coded.{coded×, coded_list, coded_ℕ};
    ghost use Rattle.change_feed.specs.declared.change.Change.{Change};
    ghost use Rattle.change_feed.specs.contracts.change.Change as change;
    ghost use Rattle.change_feed.specs.Segments.{changes_in};
    ghost use Rattle.journal_core.specs.code.Segments.{HaveChanges, room};

    ghost Value = { List Change × ℕ };

    ghost coded = { coded× (coded_list change.the_row.coded) coded_ℕ };

    ghost view = { λ s. (changes_in s.sealed.items ++ s.last.items, room s.last) };

    ghost invariant = { λ s. HaveChanges s.sealed.items };
}

impl Segments {
    /// No changes.
    pub fn new(alloc: Global) -> Segments
        ensures { result.0 ≡ [] }
    {
        Segments {
            alloc,
            sealed: Vec::new(alloc),
            last: Vec::new(alloc),
        }
    }

    /// The changes, lent.
    pub fn lend(&self) -> Changes<'_>
        ensures changes { listed result ≡ self.now.0 }
        ensures whole { IsWhole result }
    {
        Changes {
            skipped: 0,
            sealed: self.sealed.as_slice(),
            last: self.last.as_slice(),
        }
    }

    /// Takes memory for some more changes. The last segment is sealed first, if it is full.
    pub fn reserve(&mut self, more: usize) -> Result<(), AllocError>
        ensures items { self.new.0 ≡ self.old.0 }
        ensures kept { self.old.1 ≤ self.new.1 }
        ensures ok { OnOk result (more ≤ self.new.1) }
    {
        if self.last.len() < SEGMENT {
            return self.last.reserve(more);
        }
        seal(self.alloc, &mut self.sealed, &mut self.last, more)
    }

    /// Adds a change for which there is memory.
    pub fn push(&mut self, change: Change)
        requires { 0 < self.old.1 }
        ensures items { self.new.0 ≡ self.old.0 ++ change ∷ [] }
        ensures room { self.old.1 ≤ self.new.1 + 1 }
    {
        let pushed = self.last.push(change);
        prove!(pushed.is_ok());
    }
}
