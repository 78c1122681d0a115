//! What is kept behind an answer.

ghost use Rattle.std.specs.Prelude.{◌≡◌};
ghost use Rattle.remote_service.specs.code.Told as spec;

use crate::error::ServiceError;
use crate::kept::{KeptFront, KeptSnap};
use crate::service::Service;
use crate::telling::{answer, of_store, settled, unprepared};
use abort_witness::BasedList;
use docc_prepare::{AppendError, PrepareError, StoreError};
use plain_data::copied;
use rdt_types::Address;
use remote_wire::{Given, WireAnswer};
use txn_lang::Snap;
use version_shard::Prepared;

impl Service {
    /// Keeps a value that was given, and answers it.
    pub(crate) fn keep_snap(
        &mut self,
        address: &Address,
        outcome: Result<Snap, StoreError>,
        seen: u64,
    ) -> Result<WireAnswer, ServiceError>
        ensures { spec.KeepsSnap self.old address.now outcome seen result self.new }
    {
        let snap = match outcome {
            Ok(snap) => snap,
            Err(e) => return Err(of_store(e)),
        };
        self.snaps.push(KeptSnap {
            address: copied(address)?,
            base: snap.base,
            value: copied(&snap.value)?,
        })?;
        answer(seen, Given::Read(snap.base, snap.value))
    }

    /// Keeps a front that was given, and answers it.
    pub(crate) fn keep_front(
        &mut self,
        observed: &BasedList,
        outcome: Result<Prepared, PrepareError>,
        seen: u64,
    ) -> Result<WireAnswer, ServiceError>
        ensures { spec.KeepsFront self.old observed.now outcome seen result self.new }
    {
        let prepared = match outcome {
            Ok(prepared) => prepared,
            Err(e) => return unprepared(seen, e),
        };
        self.fronts.push(KeptFront {
            shard: prepared.shard,
            based: copied(observed)?,
            front: prepared.front,
        })?;
        answer(seen, Given::Front(prepared.front))
    }

    /// Forgets what was kept, and answers an append. The seq is the next one behind a commit.
    pub(crate) fn settle(
        &mut self,
        next: u64,
        outcome: Result<u64, AppendError>,
        seen: u64,
    ) -> Result<WireAnswer, ServiceError>
        ensures told { result ≡ spec.settled seen outcome }
        ensures ended { self.new ≡ spec.ended self.old next outcome }
    {
        self.snaps.truncate(0);
        self.fronts.truncate(0);
        if outcome.is_ok() {
            self.seq = next;
        }
        settled(seen, outcome)
    }
}
