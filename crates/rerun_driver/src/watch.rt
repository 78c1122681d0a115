//! What is kept of a watch.

ghost use Rattle.std.specs.Prelude.{◌≡◌, ◌&&◌, not};
ghost use Rattle.rerun_driver.specs.Watches as spec;
ghost use Rattle.rerun_driver.specs.Watches.{reported, told, settled};

use crate::touching::touches;
use rdt_types::DeltaMap;
use std::mem::replace;
use txn_lang::{Checked, Run, SeenList};

/// A body, and of its last run what was reported.
#[derive(Debug, Drop)]
pub struct Watch {
    pub body: Checked,
    /// The number of the journal as of which its last run was reported.
    pub number: u64,
    /// What that run observed.
    pub observations: SeenList,
    /// Whether a change since then clashes with one of these observations.
    pub stale: bool,
}

/// A stale watch, as far as its rerun goes.
#[derive(Clone, Copy)]
pub struct StaleWatch<'w> {
    pub name: &'w [u8],
    pub body: &'w Checked,
}

impl Watch {
    /// A watch whose first run is reported.
    pub(crate) fn new(body: Checked, number: u64, run: Run) -> Watch
        ensures { result ≡ reported body number run }
    {
        Watch {
            body,
            number,
            observations: run.observations,
            stale: false,
        }
    }

    /// Becomes stale where changes touch what it observed, and answers whether it wasn't before. It is never refused for
    /// want of memory.
    pub(crate) fn tell(&mut self, changes: &DeltaMap) -> bool
        ensures told { self.new ≡ told changes.now self.old }
        ensures turned { result ≡ (not self.old.stale && spec.touches changes.now self.old.observations) }
    {
        if self.stale {
            return false;
        }
        self.stale = touches(changes, self.observations.as_slice());
        self.stale
    }

    /// Takes the report of a run, and answers what the run before observed. It is never refused for want of memory.
    pub(crate) fn settle(&mut self, number: u64, run: Run) -> SeenList
        ensures kept { self.new ≡ settled number run self.old }
        ensures before { result ≡ self.old.observations }
    {
        self.number = number;
        self.stale = false;
        replace(&mut self.observations, run.observations)
    }
}
