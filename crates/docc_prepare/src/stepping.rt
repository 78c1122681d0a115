//! Attempts step by step: the next event, and what is taken of its answer.

ghost use Rattle.std.specs.Prelude.{◌≡◌, ◌≤◌, [], IfOk, OnOk, OnErr};
ghost use Rattle.rdt_types.specs.declared.limits.TheConstants.{LEAST_SHARDS, MOST_SHARDS};
ghost use Rattle.txn_lang.specs.Execution.{done};
ghost use Rattle.docc_prepare.specs.Attempts as spec;
ghost use Rattle.docc_prepare.specs.Attempts.{PausesAt, KeepsPauses, Prepares};

use crate::attempt::{Attempt, Next};
use crate::observed;
use abort_witness::BasedList;
use journal_core::{FrontList, PreparedFront, Ready};
use plain_data::OrderedMap;
use rdt_types::{Address, shard_of};
use std::alloc::{AllocError, Global};
use txn_eval::{Pause, Step, go_on};
use txn_lang::{Checked, Run, Snap};
use version_shard::Prepared;

impl Attempt {
    /// An attempt at a body, of which nothing was read or prepared. It is never refused for want of memory.
    pub fn begin(alloc: Global, body: Checked, shards: u8) -> Attempt
        requires shards { (LEAST_SHARDS ≤ shards) × (shards ≤ MOST_SHARDS) }
        ensures body { result.body ≡ body }
        ensures shards { result.shards ≡ shards }
        ensures unread { result.snaps ≡ [] }
        ensures unprepared { result.fronts ≡ [] }
    {
        Attempt {
            body,
            shards,
            snaps: OrderedMap::new(alloc),
            fronts: FrontList::new(alloc),
        }
    }

    /// What comes next where the run is done.
    #[inline(always)]
    fn after_run(&self, run: Run) -> Next
        ensures { result ≡ spec.next_of self.now.shards self.now.fronts (done run) }
    {
        let observations = run.observations.as_slice();
        match observed::least_unprepared(self.shards, self.fronts.as_slice(), observations) {
            Some(shard) => Next::Prepare(shard, run),
            None => Next::Append(run),
        }
    }

    /// The next event where the run is known, as it is after a shard was prepared. The body isn't run.
    pub fn next_on(&self, run: Run) -> Next
        requires { spec.ran self.now ≡ done run }
        ensures { result ≡ spec.next_event self.now }
    {
        self.after_run(run)
    }

    /// The next event. The run of the body goes on from a pause, and leaves one from which it may go on. For want of
    /// memory the pause is of no use any more: nothing is said of it.
    #[inline(always)]
    pub fn next_from(&self, alloc: Global, pause: &mut Pause) -> Result<Next, AllocError>
        requires { PausesAt self.now pause.old }
        ensures next { IfOk result (λ next. next ≡ spec.next_event self.now) }
        ensures paused { IfOk result (λ next. PausesAt self.now pause.new) }
    {
        match go_on(alloc, &self.body, &self.snaps, pause)? {
            Step::Need(address) => Ok(Next::Read(address)),
            Step::Done(run) => Ok(self.after_run(run)),
        }
    }

    /// The next event. The body is run from its start.
    pub fn next(&self, alloc: Global) -> Result<Next, AllocError>
        ensures { IfOk result (λ next. next ≡ spec.next_event self.now) }
    {
        self.next_from(alloc, &mut Pause::begun(alloc))
    }

    /// Takes the value that was read at an address, with the front at which it was.
    pub fn take_snap(&mut self, address: Address, snap: Snap) -> Result<(), AllocError>
        requires next { spec.next_event self.old ≡ Next.Read address }
        ensures ok { OnOk result (self.new ≡ spec.with_snap self.old address snap) }
        ensures pauses { OnOk result (KeepsPauses self.old self.new) }
        ensures err { OnErr result (self.new ≡ self.old) }
    {
        self.snaps.insert(address, snap)
    }

    /// Takes the front at which a shard was prepared.
    pub fn take_prepared(&mut self, prepared: Prepared) -> Result<(), AllocError>
        requires next { Prepares self.old prepared.shard }
        ensures ok { OnOk result (self.new ≡ spec.with_front self.old prepared.shard prepared.front) }
        ensures pauses { OnOk result (KeepsPauses self.old self.new) }
        ensures err { OnErr result (self.new ≡ self.old) }
    {
        self.fronts.push(PreparedFront {
            shard: prepared.shard,
            front: prepared.front,
        })
    }

    /// What a run observed in a shard, with the bases at which it was read.
    pub fn based(&self, alloc: Global, run: &Run, shard: u8) -> Result<BasedList, AllocError>
        ensures { IfOk result (λ all. all ≡ spec.in_shard self.now.shards shard (spec.based self.now.snaps run.now.observations)) }
    {
        let observations = run.observations.as_slice();
        let mut inside = BasedList::new(alloc);
        for seen in observations {
            if shard_of(&seen.address, self.shards) == shard {
                inside.push(observed::with_base(&self.snaps, seen)?)?;
            }
        }
        Ok(inside)
    }

    /// What is handed to the journal: the run with all that it is validated by.
    pub fn ready(&self, alloc: Global, run: Run, client: u32, seq: u64) -> Result<Ready, AllocError>
        requires next { spec.next_event self.now ≡ Next.Append run }
        ensures { IfOk result (λ ready. ready ≡ spec.ready_of self.now run client seq) }
    {
        let based = observed::based(alloc, &self.snaps, run.observations.as_slice())?;
        Ok(Ready {
            client,
            seq,
            body: self.body.source.clone()?,
            run,
            based,
            fronts: self.fronts.clone()?,
        })
    }
}
