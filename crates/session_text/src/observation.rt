//! Observations beside an address, whose kind decides.

ghost use Rattle.std.specs.Prelude.{◌≡◌};
ghost use Rattle.predictive_parsing.specs.Reads.{Reads, OnlyRefuses};
ghost use Rattle.session_text.specs.code.Replies as spec;

use crate::answer::numbered;
use conflict_table::Obs;
use dtext::{next_number, next_text};
use plain_data::OrNoMemory;
use predictive_parsing::{Cursor, Refused};
use rdt_types::Kind;
use std::alloc::Global;

/// The observation of the whole value of a kind. That of a peak has its value in it, and isn't asked for.
fn whole_of(kind: Kind) -> Obs
    ensures { result ≡ spec.whole_of kind }
{
    match kind {
        Kind::Bool => Obs::BoolIs,
        Kind::Counter => Obs::CounterIs,
        Kind::Text => Obs::TextIs,
        Kind::Set => Obs::SetAll,
        Kind::Hash => Obs::HashAll,
        Kind::List => Obs::ListAll,
        Kind::Peak => Obs::PeakIs(0),
    }
}

#[tactic(auto, unfolding(crate::specs::code::Replies::whole))]
fn whole(kind: Kind, cursor: &mut Cursor<u8>) -> Result<Obs, OrNoMemory<Refused>>
    ensures read { Reads (spec.whole kind cursor.old) result cursor.new }
    ensures refusal { OnlyRefuses result }
{
    cursor.word(b"whole")?;
    Ok(whole_of(kind))
}

#[tactic(auto, unfolding(crate::specs::code::Replies::all))]
fn all(kind: Kind, cursor: &mut Cursor<u8>) -> Result<Obs, OrNoMemory<Refused>>
    ensures read { Reads (spec.all kind cursor.old) result cursor.new }
    ensures refusal { OnlyRefuses result }
{
    cursor.word(b"all")?;
    Ok(whole_of(kind))
}

#[tactic(auto, unfolding(crate::specs::code::Replies::set_obs))]
fn set_obs(alloc: Global, cursor: &mut Cursor<u8>) -> Result<Obs, OrNoMemory<Refused>>
    ensures { Reads (spec.set_obs cursor.old) result cursor.new }
{
    if cursor.sees_byte(b'h') {
        cursor.word(b"has ")?;
        Ok(Obs::SetHas(next_text(alloc, cursor)?))
    } else {
        all(Kind::Set, cursor)
    }
}

#[tactic(auto, unfolding(crate::specs::code::Replies::hash_obs))]
fn hash_obs(alloc: Global, cursor: &mut Cursor<u8>) -> Result<Obs, OrNoMemory<Refused>>
    ensures { Reads (spec.hash_obs cursor.old) result cursor.new }
{
    cursor.word(b"a")?;
    if cursor.sees_byte(b't') {
        cursor.word(b"t ")?;
        Ok(Obs::HashAt(next_text(alloc, cursor)?))
    } else {
        cursor.word(b"ll")?;
        Ok(Obs::HashAll)
    }
}

#[tactic(auto, unfolding(crate::specs::code::Replies::list_obs))]
fn list_obs(cursor: &mut Cursor<u8>) -> Result<Obs, OrNoMemory<Refused>>
    ensures read { Reads (spec.list_obs cursor.old) result cursor.new }
    ensures refusal { OnlyRefuses result }
{
    cursor.word(b"a")?;
    if cursor.sees_byte(b't') {
        Ok(Obs::ListAt(numbered(cursor, b"t ")?))
    } else {
        cursor.word(b"ll")?;
        Ok(Obs::ListAll)
    }
}

/// The observation of a peak. One that was above the number is never in a reply, since nothing clashes with it.
#[tactic(auto, unfolding(crate::specs::code::Replies::peak_obs))]
fn peak_obs(cursor: &mut Cursor<u8>) -> Result<Obs, OrNoMemory<Refused>>
    ensures read { Reads (spec.peak_obs cursor.old) result cursor.new }
    ensures refusal { OnlyRefuses result }
{
    if cursor.sees_byte(b'i') {
        cursor.word(b"is ")?;
        Ok(Obs::PeakIs(next_number(cursor)?))
    } else {
        cursor.word(b"over ")?;
        Ok(Obs::PeakOver(next_number(cursor)?, false))
    }
}

/// The observation that is next, beside an address of this kind.
#[tactic(auto, unfolding(crate::specs::code::Replies::obs_of))]
pub(crate) fn next_obs(
    alloc: Global,
    kind: Kind,
    cursor: &mut Cursor<u8>,
) -> Result<Obs, OrNoMemory<Refused>>
    ensures { Reads (spec.obs_of kind cursor.old) result cursor.new }
{
    match kind {
        Kind::Bool | Kind::Counter | Kind::Text => whole(kind, cursor),
        Kind::Set => set_obs(alloc, cursor),
        Kind::Hash => hash_obs(alloc, cursor),
        Kind::List => list_obs(cursor),
        Kind::Peak => peak_obs(cursor),
    }
}
