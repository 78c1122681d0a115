//! Why commits are refused.

use crate::part::{Part, put_long};
use abort_witness::Witness;
use conflict_table::Obs;
use plain_data::Text;
use rdt_types::{Address, WriteOp};
use record_code::{FieldError, read_u64};
use std::alloc::{AllocError, Global};

/// Why a commit is refused.
impl Part for Witness {
    ghost use Rattle.remote_wire.specs.AnswerSpelling.{witness_bytes};
    ghost use Rattle.remote_wire.specs.AnswerForms.{IsWitness};
    ghost use Rattle.remote_wire.specs.AnswerReading.{witness_at};

    ghost spelling = { witness_bytes };

    ghost has_form = { IsWitness };

    ghost read_at = { witness_at };

    fn put(&self, out: &mut Text) -> Result<(), AllocError> {
        self.address.put(out)?;
        self.obs.put(out)?;
        put_long(out, self.base)?;
        self.part.put(out)?;
        put_long(out, self.number)
    }

    #[tactic(auto, unfolding(crate::specs::AnswerReading::witness_at, record_code::specs::Fields::pair_at))]
    fn take(alloc: Global, bytes: &[u8]) -> Result<(Witness, &[u8]), FieldError> {
        let (address, rest) = Address::take(alloc, bytes)?;
        let (obs, rest) = Obs::take(alloc, rest)?;
        let (base, rest) = read_u64(rest)?;
        let (part, rest) = WriteOp::take(alloc, rest)?;
        let (number, rest) = read_u64(rest)?;
        Ok((
            Witness {
                address,
                obs,
                base,
                part,
                number,
            },
            rest,
        ))
    }
}
