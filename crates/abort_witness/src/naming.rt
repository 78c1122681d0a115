//! Witnesses of clashes.

ghost use Rattle.std.specs.Prelude.{◌≡◌, true, IfOk};
ghost use Rattle.conflict_table.specs.Observing.{kind_observed};
ghost use Rattle.rdt_types.specs.Deltas.{kind_changed};
ghost use Rattle.conflict_table.specs.Clashes.{clash};
ghost use Rattle.abort_witness.specs.Naming.{Names, NamesDelta};

use crate::witness::{Based, Witness};
use change_feed::Change;
use conflict_table::{copy_part, part};
use plain_data::copied;
use rdt_types::Delta;
use std::alloc::AllocError;

/// Why a commit is refused: the observation with its base, and the part of the change that it clashes with.
pub fn name(based: &Based, change: &Change) -> Result<Witness, AllocError>
    requires address { based.now.address ≡ change.now.address }
    requires kind { kind_observed based.now.obs ≡ kind_changed change.now.delta }
    requires clash { clash based.now.obs change.now.delta ≡ true }
    ensures { IfOk result (Names based.now change.now) }
{
    name_delta(based, &change.delta, change.number)
}

/// The same, of a delta at the observation's address and the number of its commit.
pub fn name_delta(based: &Based, delta: &Delta, number: u64) -> Result<Witness, AllocError>
    requires kind { kind_observed based.now.obs ≡ kind_changed delta.now }
    requires clash { clash based.now.obs delta.now ≡ true }
    ensures { IfOk result (NamesDelta based.now number delta.now) }
{
    let named = part(&based.obs, delta);
    Ok(Witness {
        address: copied(&based.address)?,
        obs: copied(&based.obs)?,
        base: based.base,
        part: copy_part(&named)?,
        number,
    })
}
