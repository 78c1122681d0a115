//! The buffer of a body's writes.

ghost use Rattle.std.specs.Prelude.{◌≡◌, [], IfOk, OnOk, OnErr};
ghost use Rattle.std.specs.Option.{option_copied};
ghost use Rattle.rdt_types.specs.Deltas as deltas;
ghost use Rattle.rdt_types.specs.DeltaMaps.{with_delta};
ghost use Rattle.write_buffer.specs.Asking.{asked};

use crate::answering::answer;
use crate::asked::Asked;
use crate::observing::{is_decided, observed};
use conflict_table::ReadOp;
use plain_data::ExactClone;
use rdt_types::{Address, DeltaMap, Value, WriteOp, add_delta, default_value, delta_of};
use std::alloc::{AllocError, Global};
use std::marker::Model;

/// What a body has written so far. Contracts see the pairs of address and delta, by rising address.
#[derive(Debug, Drop)]
pub struct Buffer {
    deltas: DeltaMap,
}

impl Model for Buffer {
    ghost use Rattle.std.specs.Coded.{coded_list, coded×};
    ghost use Rattle.rdt_types.specs.DeltaMaps.{Deltas};
    ghost use Rattle.rdt_types.specs.contracts.address.Address as address;
    ghost use Rattle.rdt_types.specs.contracts.delta.Delta as delta;

    ghost Value = { Deltas };

    ghost coded = { coded_list (coded× address.the_row.coded delta.the_row.coded) };

    ghost view = { λ b. b.deltas };
}

impl Buffer {
    /// Nothing written.
    pub fn new(alloc: Global) -> Buffer
        ensures { result ≡ [] }
    {
        Buffer {
            deltas: DeltaMap::new(alloc),
        }
    }

    /// Adds an operation, behind what was written at the address before.
    pub fn put(&mut self, alloc: Global, address: &Address, op: &WriteOp) -> Result<(), AllocError>
        ensures ok { OnOk result (self.new ≡ with_delta self.old address.now (deltas.delta_of op.now)) }
        ensures err { OnErr result (self.new ≡ self.old) }
    {
        let address = address.clone()?;
        self.put_at(alloc, address, op)
    }

    /// Adds an operation, as `put` does, at an address that is the buffer's own from then on.
    pub fn put_at(
        &mut self,
        alloc: Global,
        address: Address,
        op: &WriteOp,
    ) -> Result<(), AllocError>
        ensures ok { OnOk result (self.new ≡ with_delta self.old address (deltas.delta_of op.now)) }
        ensures err { OnErr result (self.new ≡ self.old) }
    {
        let delta = delta_of(alloc, op)?;
        add_delta(alloc, &mut self.deltas, address, delta)
    }

    /// What a read of an address answers, over what was written there and the value, if it is known. Of the value it copies
    /// what it answers.
    pub fn ask(
        &self,
        alloc: Global,
        address: &Address,
        read: &ReadOp,
        base: Option<&Value>,
    ) -> Result<Asked, AllocError>
        ensures { IfOk result (λ a. a ≡ asked self.now address.now read.now (option_copied base.entry)) }
    {
        let own = self.deltas.get(address);
        if is_decided(read, own) {
            let value = default_value(alloc, address.kind);
            return Ok(Asked::Answered(answer(alloc, read, own, &value)?, None));
        }
        match base {
            None => Ok(Asked::Need),
            Some(value) => {
                let seen = observed(read, own, value)?;
                Ok(Asked::Answered(answer(alloc, read, own, value)?, Some(seen)))
            }
        }
    }

    /// What was written, by rising address.
    pub fn into_deltas(self) -> DeltaMap
        ensures { result ≡ self }
    {
        let Buffer { deltas } = self;
        deltas
    }
}
