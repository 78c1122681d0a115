//! The shards of a world: they follow the journal, and are read and validated.

ghost use Rattle.std.specs.Prelude.{◌≡◌, ◌≤◌, ◌<◌, length, max, set, get_or, IfOk, OnOk, OnErr};
ghost use Rattle.txn_lang.specs.States as states;
ghost use Rattle.version_shard.specs.Shards.{IsIn};
ghost use Rattle.version_shard.specs.Standing.{HoldsSoFar};
ghost use Rattle.std.specs.List.{AllByRecursion};
ghost use Rattle.rdt_types.specs.Shards.{shard_of};
ghost use Rattle.abort_witness.specs.Kinds.{IsBasedOfOneKind};
ghost use Rattle.txn_lang.specs.States.{state};
ghost use Rattle.txn_lang.specs.Journals.{IsLegal};
ghost use Rattle.docc_prepare.specs.Calls.{value_answered};
ghost use Rattle.local_world.specs.Answering as answering;
ghost use Rattle.local_world.specs.Answering.{back_from, IsValidatedBy, WantsWitness};
ghost use Rattle.local_world.specs.Standing.{IsHeld, AreHeld, HaveRisen, fronts_of, fronts_to};

use abort_witness::Based;
use conflict_table::Steps;
use docc_prepare::{PrepareError, ReadAtError};
use journal_core::{Journal, MemKeep};
use rdt_types::{Address, Settings, Value, shard_of};
use std::alloc::AllocError;
use std::sync::ledger::{Blank, Ledger};
use txn_lang::Snap;
use version_shard::{AtError, Prepared, Refusal, Shard};

/// Lets a shard follow the journal to a number, where it is behind that. For want of memory it may stand at a front between.
fn follow_to(
    journal: &Journal<MemKeep>,
    settings: &Settings,
    shard: &mut Shard,
    place: u8,
    to: u64,
) -> Result<(), AllocError>
    requires legal { IsLegal 0 journal.now.commits }
    requires all_shards { journal.now.shards ≡ settings.now.shards }
    requires held { IsHeld journal.now.commits settings.now place shard.old }
    requires within { to ≤ length journal.now.commits }
    ensures held { IsHeld journal.now.commits settings.now place shard.new }
    ensures never_back { shard.old.front ≤ shard.new.front }
    ensures within { shard.new.front ≤ max shard.old.front to }
    ensures ok { OnOk result (shard.new.front ≡ max shard.old.front to) }
{
    let front = shard.front();
    if to <= front {
        return Ok(());
    }
    let tail = journal.lend_tail(place, front, to);
    shard.follow_lent(&tail)
}

/// Lets the shard at a place follow the journal to a number, where it is behind that. For want of memory it may stand at a
/// front between.
pub(crate) fn follow_at(
    journal: &Journal<MemKeep>,
    settings: &Settings,
    shards: &mut Vec<Shard>,
    place: u8,
    to: u64,
) -> Result<(), AllocError>
    requires legal { IsLegal 0 journal.now.commits }
    requires all_shards { journal.now.shards ≡ settings.now.shards }
    requires held { AreHeld journal.now.commits settings.now shards.old.items }
    requires there { place < settings.now.shards }
    requires within { to ≤ length journal.now.commits }
    ensures held { AreHeld journal.now.commits settings.now shards.new.items }
    ensures risen { HaveRisen journal.now.commits (fronts_of shards.old.items) (fronts_of shards.new.items) }
    ensures within { get_or (fronts_of shards.new.items) place 0 ≤ max (get_or (fronts_of shards.old.items) place 0) to }
    ensures ok { OnOk result (fronts_of shards.new.items ≡ set (fronts_of shards.old.items) place (max (get_or (fronts_of shards.old.items) place 0) to)) }
{
    follow_to(journal, settings, &mut shards[place as usize], place, to)
}

/// The value at an address at the front of its shard, which is let follow to a number first.
pub(crate) fn read_in(
    journal: &Journal<MemKeep>,
    settings: &Settings,
    shards: &mut Vec<Shard>,
    address: &Address,
    seen: u64,
) -> Result<Snap, AllocError>
    requires legal { IsLegal 0 journal.now.commits }
    requires all_shards { journal.now.shards ≡ settings.now.shards }
    requires held { AreHeld journal.now.commits settings.now shards.old.items }
    requires within { seen ≤ length journal.now.commits }
    ensures held { AreHeld journal.now.commits settings.now shards.new.items }
    ensures risen { HaveRisen journal.now.commits (fronts_of shards.old.items) (fronts_of shards.new.items) }
    ensures base { IfOk result (λ snap. snap.base ≡ max (get_or (fronts_of shards.old.items) (shard_of address.now settings.now.shards) 0) seen) }
    ensures value { IfOk result (λ snap. snap.value ≡ state journal.now.commits snap.base address.now) }
    ensures ok { IfOk result (λ snap. fronts_of shards.new.items ≡ set (fronts_of shards.old.items) (shard_of address.now settings.now.shards) snap.base) }
{
    let place = shard_of(address, settings.shards);
    follow_at(journal, settings, shards, place, seen)?;
    shards[place as usize].read(address)
}

/// What is told of a shard's answer at a number: that it is late there is no want of memory.
fn value_told(answer: Result<Value, AtError>) -> Result<Result<Value, ReadAtError>, AllocError>
    ensures { result ≡ answering.value_told answer }
{
    match answer {
        Ok(value) => Ok(Ok(value)),
        Err(AtError::Late(number, horizon)) => Ok(Err(ReadAtError::Late(number, horizon))),
        Err(AtError::NoMemory) => Err(AllocError),
    }
}

/// The value at an address at a number, to which its shard is let follow first; or that it is late there.
pub(crate) fn read_back(
    journal: &Journal<MemKeep>,
    settings: &Settings,
    shards: &mut Vec<Shard>,
    address: &Address,
    number: u64,
) -> Result<Result<Value, ReadAtError>, AllocError>
    requires legal { IsLegal 0 journal.now.commits }
    requires all_shards { journal.now.shards ≡ settings.now.shards }
    requires held { AreHeld journal.now.commits settings.now shards.old.items }
    requires within { number ≤ length journal.now.commits }
    ensures held { AreHeld journal.now.commits settings.now shards.new.items }
    ensures risen { HaveRisen journal.now.commits (fronts_of shards.old.items) (fronts_of shards.new.items) }
    ensures moved { OnOk result (fronts_of shards.new.items ≡ fronts_to settings.now shards.old.items address.now number) }
    ensures answer { IfOk result (λ answer. value_answered answer
        ≡ back_from journal.now.commits settings.now shards.old.items address.now number) }
{
    let place = shard_of(address, settings.shards);
    follow_at(journal, settings, shards, place, number)?;
    value_told(shards[place as usize].read_at(address, number))
}

/// What is told of what a shard finds of observations: neither late nor a clash is a want of memory.
fn front_told(
    found: Result<Prepared, Refusal>,
) -> Result<Result<Prepared, PrepareError>, AllocError>
    ensures { result ≡ answering.front_told found }
{
    match found {
        Ok(prepared) => Ok(Ok(prepared)),
        Err(Refusal::Late(base, horizon)) => Ok(Err(PrepareError::Late(base, horizon))),
        Err(Refusal::Clash(witness)) => Ok(Err(PrepareError::Clash(witness))),
        Err(Refusal::NoMemory) => Err(AllocError),
    }
}

/// Whether no commit up to a shard's front clashes with observations in it. It takes memory for the witness of a clash alone.
pub(crate) fn validate_in<L: Ledger>(
    blank: Blank,
    shard: &Shard,
    based: &[Based],
) -> Result<Result<Prepared, PrepareError>, AllocError>
    requires name { blank.name ≡ L.name }
    requires parts { blank.parts ≡ L.parts }
    requires one { blank.parts ≡ 1 }
    requires here { AllByRecursion (λ b. IsIn shard.now b.address) based.now }
    requires kinds { AllByRecursion IsBasedOfOneKind based.now }
    ensures answer { (journal : states.Journal) → IsLegal 0 journal → HoldsSoFar journal shard.now
        → IfOk result (IsValidatedBy journal shard.now based.now) }
    ensures err { (journal : states.Journal) → HoldsSoFar journal shard.now
        → OnErr result (WantsWitness journal shard.now based.now) }
{
    let mut steps = Steps::<L>::new(blank);
    let found = shard.validate(based, &mut steps);
    front_told(found)
}
