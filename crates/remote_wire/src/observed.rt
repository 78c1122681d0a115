//! Observations, and what stands beside them: addresses and bases.

ghost use Rattle.std.specs.Prelude.{◌≡◌, ◌++◌, OnOk};
ghost use Rattle.remote_wire.specs.Spelling.{obs_byte, obs_parts};
ghost use Rattle.remote_wire.specs.Forms.{IsObs};
ghost use Rattle.remote_wire.specs.Reading.{obs_of};
ghost use Rattle.record_code.specs.code.Reads.{Reads};

use crate::part::{Part, put_long};
use crate::request::Base;
use crate::tags::{OBS_TAGS, ObsTag};
use abort_witness::Based;
use commit_file::Version;
use conflict_table::Obs;
use plain_data::Text;
use rdt_types::Address;
use record_code::{Field, FieldError, read_i64, read_tag, read_u64, write_byte, write_i64};
use std::alloc::{AllocError, Global};

/// The byte of an observation's form.
fn byte_of_form(obs: &Obs) -> u8
    ensures { result ≡ obs_byte obs.now }
{
    match obs {
        Obs::BoolIs => 0,
        Obs::CounterIs => 1,
        Obs::TextIs => 2,
        Obs::SetHas(_) => 3,
        Obs::SetAll => 4,
        Obs::HashAt(_) => 5,
        Obs::HashAll => 6,
        Obs::ListAt(_) => 7,
        Obs::ListAll => 8,
        Obs::PeakIs(_) => 9,
        Obs::PeakOver(_, _) => 10,
    }
}

/// Writes what an observation is made of.
fn put_parts(out: &mut Text, obs: &Obs) -> Result<(), AllocError>
    ensures written { OnOk result (out.new ≡ out.old ++ obs_parts obs.now) }
    ensures form { OnOk result (IsObs obs.now) }
{
    match obs {
        Obs::SetHas(text) => text.put(out),
        Obs::HashAt(field) => field.put(out),
        Obs::ListAt(place) => put_long(out, *place),
        Obs::PeakIs(number) => write_i64(out, *number),
        Obs::PeakOver(number, over) => {
            write_i64(out, *number)?;
            over.write(out)
        }
        Obs::BoolIs | Obs::CounterIs | Obs::TextIs | Obs::SetAll | Obs::HashAll | Obs::ListAll =>
            Ok(()),
    }
}

/// Reads an observation of a form.
#[tactic(auto, unfolding(crate::specs::Reading::obs_of, record_code::specs::Fields::pair_at))]
fn take_parts(alloc: Global, tag: ObsTag, bytes: &[u8]) -> Result<(Obs, &[u8]), FieldError>
    ensures { Reads (λ read. (read.0, read.1.now)) result (obs_of tag bytes.now) }
{
    match tag {
        ObsTag::BoolIs => Ok((Obs::BoolIs, bytes)),
        ObsTag::CounterIs => Ok((Obs::CounterIs, bytes)),
        ObsTag::TextIs => Ok((Obs::TextIs, bytes)),
        ObsTag::SetHas => {
            let (text, rest) = Text::take(alloc, bytes)?;
            Ok((Obs::SetHas(text), rest))
        }
        ObsTag::SetAll => Ok((Obs::SetAll, bytes)),
        ObsTag::HashAt => {
            let (field, rest) = Text::take(alloc, bytes)?;
            Ok((Obs::HashAt(field), rest))
        }
        ObsTag::HashAll => Ok((Obs::HashAll, bytes)),
        ObsTag::ListAt => {
            let (place, rest) = read_u64(bytes)?;
            Ok((Obs::ListAt(place), rest))
        }
        ObsTag::ListAll => Ok((Obs::ListAll, bytes)),
        ObsTag::PeakIs => {
            let (number, rest) = read_i64(bytes)?;
            Ok((Obs::PeakIs(number), rest))
        }
        ObsTag::PeakOver => {
            let (number, rest) = read_i64(bytes)?;
            let (over, rest) = bool::read(alloc, Version::Two, rest)?;
            Ok((Obs::PeakOver(number, over), rest))
        }
    }
}

impl Part for Obs {
    ghost use Rattle.remote_wire.specs.Spelling.{obs_bytes};
    ghost use Rattle.remote_wire.specs.Forms.{IsObs};
    ghost use Rattle.remote_wire.specs.Reading.{obs_at};

    ghost spelling = { obs_bytes };

    ghost has_form = { IsObs };

    ghost read_at = { obs_at };

    fn put(&self, out: &mut Text) -> Result<(), AllocError> {
        write_byte(out, byte_of_form(self))?;
        put_parts(out, self)
    }

    #[tactic(auto, unfolding(crate::specs::Reading::obs_at))]
    fn take(alloc: Global, bytes: &[u8]) -> Result<(Obs, &[u8]), FieldError> {
        let (tag, rest) = read_tag(&OBS_TAGS, bytes)?;
        take_parts(alloc, tag, rest)
    }
}

/// An observation at an address, and its base.
impl Part for Based {
    ghost use Rattle.remote_wire.specs.Spelling.{based_bytes};
    ghost use Rattle.remote_wire.specs.Forms.{IsBased};
    ghost use Rattle.remote_wire.specs.Reading.{based_at};

    ghost spelling = { based_bytes };

    ghost has_form = { IsBased };

    ghost read_at = { based_at };

    fn put(&self, out: &mut Text) -> Result<(), AllocError> {
        self.address.put(out)?;
        self.obs.put(out)?;
        put_long(out, self.base)
    }

    #[tactic(auto, unfolding(crate::specs::Reading::based_at, record_code::specs::Fields::pair_at))]
    fn take(alloc: Global, bytes: &[u8]) -> Result<(Based, &[u8]), FieldError> {
        let (address, rest) = Address::take(alloc, bytes)?;
        let (obs, rest) = Obs::take(alloc, rest)?;
        let (base, rest) = read_u64(rest)?;
        Ok((Based { address, obs, base }, rest))
    }
}

/// An address and its base.
impl Part for Base {
    ghost use Rattle.remote_wire.specs.Spelling.{base_bytes};
    ghost use Rattle.remote_wire.specs.Forms.{IsBase};
    ghost use Rattle.remote_wire.specs.Reading.{base_at};

    ghost spelling = { base_bytes };

    ghost has_form = { IsBase };

    ghost read_at = { base_at };

    fn put(&self, out: &mut Text) -> Result<(), AllocError> {
        self.address.put(out)?;
        put_long(out, self.base)
    }

    #[tactic(auto, unfolding(crate::specs::Reading::base_at, record_code::specs::Fields::pair_at))]
    fn take(alloc: Global, bytes: &[u8]) -> Result<(Base, &[u8]), FieldError> {
        let (address, rest) = Address::take(alloc, bytes)?;
        let (base, rest) = read_u64(rest)?;
        Ok((Base { address, base }, rest))
    }
}
