//! A shard: the values of its addresses within a window of the journal, and how they follow a tail of it.

ghost use Rattle.std.specs.Prelude.{◌≡◌, ◌<◌, ◌≤◌, ◌-◌, OnOk, OnErr, IfOk, IfErr};
ghost use Rattle.std.specs.List.{AllByRecursion};
ghost use Rattle.change_feed.specs.Feeds.{AreOfTheirKinds};
ghost use Rattle.change_feed.specs.Lists.{listed};
ghost use Rattle.abort_witness.specs.Kinds.{IsBasedOfOneKind};
ghost use Rattle.version_shard.specs.Shards as spec;
ghost use Rattle.version_shard.specs.Shards.{IsIn, AreKept};
ghost use Rattle.version_shard.specs.Standing.{InEach, HasReached, GoesOn, StandsBehind, empty_by};
ghost use Rattle.version_shard.specs.Validating.{ReadsAt, ReadsFront, Validates, IsWithinSteps};
ghost use Rattle.version_shard.specs.code.Following.{cut_along, DoesToAll, Follows, StopsAt, Reaches};
ghost use Rattle.journal_core.specs.Tails.{tail_of};

use crate::at_error::AtError;
use crate::kept::Kept;
use crate::prepared::{Prepared, Refusal};
use crate::validating::{late_base, least_hit, witness_of};
use abort_witness::Based;
use change_feed::{Change, Changes, Tail};
use conflict_table::Steps;
use journal_core::{LentChanges, LentTail};
use rdt_types::{Address, Settings, Value, default_value};
use std::alloc::{AllocError, Global};
use std::marker::Model;
use std::sync::ledger::Ledger;
use txn_lang::Snap;

/// The values of one shard's addresses at its front, and at each number down to its horizon.
#[derive(Drop)]
pub struct Shard {
    alloc: Global,
    number: u8,
    shards: u8,
    window: u16,
    front: u64,
    kept: Kept,
}

impl Model for Shard {
    ghost use Rattle.rdt_types.specs.contracts.address.Address as address;
    ghost use Rattle.version_shard.specs.contracts.versions.Versions as versions;
    ghost use Rattle.version_shard.specs.Shards.{Sharded, sharded_code, AreKept};

    ghost Value = { Sharded };

    ghost coded = { sharded_code address.the_row.coded versions.the_row.coded };

    ghost view = { λ s. record { number = s.number; shards = s.shards; window = s.window; front = s.front; kept = s.kept } };

    ghost invariant = { λ s. AreKept s.front s.kept };
}

impl Shard {
    /// The shard of a number that has followed the journal from its beginning to where a tail goes.
    pub fn new(
        alloc: Global,
        number: u8,
        settings: &Settings,
        kept: &Tail,
    ) -> Result<Shard, AllocError>
        requires number { number < settings.now.shards }
        requires from { kept.now.from ≡ 0 }
        requires kinds { AreOfTheirKinds kept.now.changes }
        ensures same { IfOk result (HasReached kept.now.to (empty_by number settings.now)) }
        ensures holds { IfOk result (StandsBehind kept.now (empty_by number settings.now)) }
    {
        let mut shard = Shard {
            alloc,
            number,
            shards: settings.shards,
            window: settings.window,
            front: 0,
            kept: Kept::new(alloc),
        };
        shard.follow(kept)?;
        Ok(shard)
    }

    /// The number of commits that it has followed.
    pub fn front(&self) -> u64
        ensures { result ≡ self.now.front }
    {
        self.front
    }

    /// The least number at which it can be read.
    pub fn horizon(&self) -> u64
        ensures { result ≡ spec.horizon self.now }
    {
        self.front.saturating_sub(self.window as u64)
    }

    /// Follows the journal from the front to where a tail goes. The cost is that of the changes; of the addresses that none of
    /// them names nothing is touched. For want of memory the front is a number between, and the versions are those of that
    /// front.
    pub fn follow(&mut self, tail: &Tail) -> Result<(), AllocError>
        requires from { tail.now.from ≡ self.old.front }
        requires kinds { AreOfTheirKinds tail.now.changes }
        ensures same { HasReached self.new.front self.old self.new }
        ensures reached { OnOk result (self.new.front ≡ tail.now.to) }
        ensures never_back { self.old.front ≤ self.new.front }
        ensures within { self.new.front ≤ tail.now.to }
        ensures holds { GoesOn tail.now self.old self.new }
    {
        let changes = LentChanges::of(tail.changes.lend());
        self.follow_lent(&LentTail {
            from: tail.from,
            to: tail.to,
            changes,
        })
    }

    /// Follows a tail that a journal lends.
    pub fn follow_lent(&mut self, tail: &LentTail<'_>) -> Result<(), AllocError>
        requires from { tail.now.from ≡ self.old.front }
        requires kinds { AreOfTheirKinds tail.now.changes.now }
        ensures same { HasReached self.new.front self.old self.new }
        ensures reached { OnOk result (self.new.front ≡ tail.now.to) }
        ensures never_back { self.old.front ≤ self.new.front }
        ensures within { self.new.front ≤ tail.now.to }
        ensures holds { GoesOn (tail_of tail.now) self.old self.new }
    {
        match reach(&mut self.kept, self.alloc, tail, self.window) {
            Ok(()) => {
                self.front = tail.to;
                Ok(())
            }
            Err(front) => {
                self.front = front;
                Err(AllocError)
            }
        }
    }

    /// The value at an address at a number.
    #[inline(always)]
    fn value_at(&self, address: &Address, number: u64) -> Result<Value, AllocError>
        ensures { IfOk result (λ value. value ≡ spec.value_at self.now address.now number) }
    {
        match self.kept.get(address) {
            Some(versions) => versions.at(self.alloc, number),
            None => Ok(default_value(self.alloc, address.kind)),
        }
    }

    /// The front, and the value at an address there. The cost is that of a look-up and a copy of the value.
    pub fn read(&self, address: &Address) -> Result<Snap, AllocError>
        requires { IsIn self.now address.now }
        ensures base { IfOk result (λ snap. snap.base ≡ self.now.front) }
        ensures value { InEach self.now (λ journal. ReadsFront journal self.now address.now result) }
    {
        let value = self.value_at(address, self.front)?;
        Ok(Snap {
            base: self.front,
            value,
        })
    }

    /// The value at an address at a number, which is late below the horizon.
    pub fn read_at(&self, address: &Address, number: u64) -> Result<Value, AtError>
        requires here { IsIn self.now address.now }
        requires within { number ≤ self.now.front }
        ensures { InEach self.now (λ journal. ReadsAt journal self.now address.now number result) }
    {
        let horizon = self.horizon();
        if number < horizon {
            return Err(AtError::Late(number, horizon));
        }
        Ok(self.value_at(address, number)?)
    }

    /// Whether no commit past the bases of some observations and up to the front clashes with them: late where a base is below
    /// the horizon, and else a clash where one does. It goes through the versions past the bases alone, and takes memory for
    /// the witness of a clash alone.
    pub fn validate<L: Ledger>(
        &self,
        based: &[Based],
        steps: &mut Steps<L>,
    ) -> Result<Prepared, Refusal>
        requires here { AllByRecursion (λ observation. IsIn self.now observation.address) based.now }
        requires kinds { AllByRecursion IsBasedOfOneKind based.now }
        ensures answers { InEach self.now (λ journal. Validates journal self.now based.now result) }
        ensures steps { InEach self.now (IsWithinSteps based.now steps.old steps.new) }
    {
        let horizon = self.horizon();
        if let Some(base) = late_base(horizon, based) {
            return Err(Refusal::Late(base, horizon));
        }
        match least_hit(&self.kept, self.front, based, steps) {
            Some(hit) => Err(Refusal::Clash(witness_of(hit.based, hit.version)?)),
            None => Ok(Prepared {
                shard: self.number,
                front: self.front,
            }),
        }
    }
}

/// Follows changes one by one, each to the horizon of a shard that stands before its commit. Where there is no memory for one of
/// them it answers the number of its commit.
fn follow_each(kept: &mut Kept, alloc: Global, tail: &LentTail<'_>, window: u16) -> Result<(), u64>
    requires { AreKept tail.now.from kept.old }
    ensures ok { OnOk result (Follows window tail.now.changes.now kept.old kept.new) }
    ensures err { IfErr result (λ number. StopsAt window (tail_of tail.now) number kept.old kept.new) }
{
    let mut rest = tail.changes.pieces();
    while let Some(piece) = rest.next_piece() {
        for change in piece {
            let horizon = change.number.saturating_sub(window as u64 + 1);
            if kept.follow(alloc, change, horizon).is_err() {
                return Err(change.number);
            }
        }
    }
    Ok(())
}

/// Lets go of the versions past a number at the addresses of the changes of a piece.
fn cut_piece(kept: &mut Kept, piece: &[Change], number: u64)
    ensures { DoesToAll (λ a. cut_along number a piece.now) kept.old kept.new }
{
    for change in piece {
        kept.cut(&change.address, number);
    }
}

/// Lets go of the versions past a number at the addresses of some changes.
fn cut_each(kept: &mut Kept, changes: &Changes<'_>, number: u64)
    ensures { DoesToAll (λ a. cut_along number a (listed changes.now)) kept.old kept.new }
{
    let mut rest = *changes;
    while let Some(piece) = rest.next_piece() {
        cut_piece(kept, piece, number);
    }
}

/// Follows a tail. For want of memory it goes back to before the commit for which there was none, and answers the front that
/// was reached.
fn reach(kept: &mut Kept, alloc: Global, tail: &LentTail<'_>, window: u16) -> Result<(), u64>
    requires { AreKept tail.now.from kept.old }
    ensures ok { OnOk result (Reaches window tail.now.changes.now tail.now.to kept.old kept.new) }
    ensures within { IfErr result (λ front. (tail.now.from ≤ front) × (front ≤ tail.now.to)) }
    ensures err { IfErr result (λ front. Reaches window tail.now.changes.now front kept.old kept.new) }
{
    match follow_each(kept, alloc, tail, window) {
        Ok(()) => Ok(()),
        Err(number) => {
            let front = number - 1;
            let pieces = tail.changes.pieces();
            cut_each(kept, &pieces, front);
            Err(front)
        }
    }
}
