//! By what observations are found.

ghost use Rattle.std.specs.Prelude.{◌≡◌, IfOk};
ghost use Rattle.txn_eval.specs.code.Found as spec;

use conflict_table::Obs;
use plain_data::{Text, copied};
use rdt_types::{Address, Kind};
use std::alloc::AllocError;
use txn_lang::Seen;

/// Of what in a value an observation is. Of a peak it carries the answer, as the observation does.
#[derive(Drop, PartialEq, Eq, PartialOrd, Ord)]
pub(crate) enum Part {
    /// All of it.
    Whole,
    /// What is at an element or a field.
    At(Text),
    /// The item at a place.
    Place(u64),
    /// The height of a peak.
    Peak(i64),
    /// Whether a peak is above a number.
    Over(i64, bool),
}

/// What an observation says, in an order.
#[derive(Drop, PartialEq, Eq, PartialOrd, Ord)]
pub(crate) struct SeenKey {
    pub address: Address,
    pub kind: Kind,
    pub part: Part,
}

/// Of what in a value an observation is.
fn part_of(obs: &Obs) -> Result<Part, AllocError>
    ensures { IfOk result (λ part. part ≡ spec.part_of obs.now) }
{
    Ok(match obs {
        Obs::SetHas(name) | Obs::HashAt(name) => Part::At(copied(name)?),
        Obs::ListAt(place) => Part::Place(*place),
        Obs::PeakIs(n) => Part::Peak(*n),
        Obs::PeakOver(n, is_over) => Part::Over(*n, *is_over),
        Obs::BoolIs | Obs::CounterIs | Obs::TextIs | Obs::SetAll | Obs::HashAll | Obs::ListAll =>
            Part::Whole,
    })
}

/// By what an observation is found.
pub(crate) fn key_of(seen: &Seen) -> Result<SeenKey, AllocError>
    ensures { IfOk result (λ key. key ≡ spec.key_of seen.now) }
{
    Ok(SeenKey {
        address: copied(&seen.address)?,
        kind: seen.obs.kind(),
        part: part_of(&seen.obs)?,
    })
}
