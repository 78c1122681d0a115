//! A disk in memory, which tells all that it holds and what a crash might have left of it.

ghost use Rattle.std.specs.Prelude.{◌≡◌, ◌<◌, ◌≤◌, ◌+◌, [], ◌∷◌, ◌++◌, map, Some, length, IfOk, OnOk, OnErr, is_err};
ghost use Rattle.dio_core.specs.Counts.{IsCounted};
ghost use Rattle.dio_core.specs.Disks.{MayLeave, Writes, Shortens, Syncs};
ghost use Rattle.dio_core.specs.Moments.{Passes};
ghost use Rattle.commit_file.specs.Tapes.{IsImage, fresh, durable_of, moment_after, mark_after, after_calls};

use crate::moment::{Moment, Torn};
use dio_core::{Disk, DiskFault, FaultPlan};
use plain_data::{Sequence, Text};
use std::alloc::{AllocError, Global};
use std::marker::Model;

/// A file in memory, which keeps each moment that it has had. It fails at calls with named numbers, and for want of memory.
#[derive(Drop)]
pub struct MemDisk {
    alloc: Global,
    present: Moment,
    past: Sequence<Moment>,
    /// For each call, how many moments were past when it began.
    marks: Sequence<usize>,
    plan: FaultPlan,
}

impl Model for MemDisk {
    ghost use Rattle.commit_file.specs.Tapes.{Tape, tape_code};

    ghost Value = { Tape };

    ghost coded = { tape_code };

    ghost view = { λ d. record { past = d.past; present = d.present; marks = d.marks; plan = d.plan } };
}

/// The mark behind some calls.
fn mark_of(marks: &[usize], calls: usize, last: usize) -> usize
    ensures { result ≡ mark_after marks.now calls last }
{
    if calls < marks.len() {
        return marks[calls];
    }
    last
}

/// The moment at a mark.
fn moment_of<'a>(past: &'a [Moment], present: &'a Moment, mark: usize) -> &'a Moment
    ensures { result.now ≡ moment_after past.now present.now mark }
{
    if mark < past.len() {
        return &past[mark];
    }
    present
}

impl MemDisk {
    /// A disk with these bytes, on which nothing is pending. The calls with the numbers in `fails` are to fail, the first
    /// being 0.
    pub fn new(alloc: Global, bytes: &[u8], fails: &[u64]) -> Result<MemDisk, AllocError>
        ensures { IfOk result (λ d. d ≡ fresh bytes.now fails.now) }
    {
        Ok(MemDisk {
            alloc,
            present: Moment::new(alloc, bytes)?,
            past: Sequence::new(alloc),
            marks: Sequence::new(alloc),
            plan: FaultPlan::new(alloc, fails)?,
        })
    }

    /// How many calls have been made.
    pub fn calls(&self) -> u64
        ensures { result ≡ length self.now.marks }
    {
        self.marks.len() as u64
    }

    /// An image that a crash may leave after so many calls.
    pub fn image(&self, calls: u64, torn: Torn) -> Result<Text, AllocError>
        requires { calls ≤ length self.now.marks }
        ensures image { IfOk result (IsImage torn (after_calls self.now calls)) }
        ensures may_leave { IfOk result (MayLeave (after_calls self.now calls).durable) }
    {
        let mark = mark_of(self.marks.as_slice(), calls as usize, self.past.len());
        moment_of(self.past.as_slice(), &self.present, mark).image(self.alloc, torn)
    }

    /// Begins a call, and says whether it may go on.
    fn begin(&mut self) -> Result<(), DiskFault>
        ensures present { self.new.present ≡ self.old.present }
        ensures past { self.new.past ≡ self.old.past }
        ensures counted { IsCounted (is_err result) self.old.plan.faults self.new.plan.faults }
    {
        let marked = self.marks.push(self.past.len()).is_ok();
        if self.plan.begin_call() {
            return Err(DiskFault);
        }
        if marked {
            return Ok(());
        }
        self.plan.add_fault();
        Err(DiskFault)
    }

    /// Keeps the moment that has passed, and makes another the present one.
    fn pass(&mut self, next: Moment) -> Result<(), AllocError>
        ensures ok { OnOk result ((self.new.present ≡ next) × (self.new.past ≡ self.old.past ++ self.old.present ∷ [])) }
        ensures err { OnErr result ((self.new.present ≡ self.old.present) × (self.new.past ≡ self.old.past)) }
        ensures plan { self.new.plan ≡ self.old.plan }
    {
        self.past.push(self.present.copy(self.alloc)?)?;
        self.present = next;
        Ok(())
    }

    /// Writes within the file or at its end.
    fn write(&mut self, at: usize, end: usize, bytes: &[u8]) -> Result<(), AllocError>
        requires within { at ≤ length self.old.present.file }
        requires end { end ≡ at + length bytes.now }
        requires some { 0 < length bytes.now }
        ensures writes { Writes result at bytes.now self.old.present self.new.present }
        ensures past { Passes (map durable_of self.old.past) (Some self.old.present) (map durable_of self.new.past) (Some self.new.present) }
        ensures plan { self.new.plan ≡ self.old.plan }
    {
        let next = self.present.written(self.alloc, at, end, bytes)?;
        self.pass(next)
    }

    fn shorten(&mut self, to: u64) -> Result<(), AllocError>
        requires { to ≤ length self.old.present.file }
        ensures cuts { Shortens result to self.old.present self.new.present }
        ensures past { Passes (map durable_of self.old.past) (Some self.old.present) (map durable_of self.new.past) (Some self.new.present) }
        ensures plan { self.new.plan ≡ self.old.plan }
    {
        let next = self.present.cut(self.alloc, to)?;
        self.pass(next)
    }

    fn settle(&mut self) -> Result<(), AllocError>
        ensures syncs { Syncs result self.old.present self.new.present }
        ensures past { Passes (map durable_of self.old.past) (Some self.old.present) (map durable_of self.new.past) (Some self.new.present) }
        ensures plan { self.new.plan ≡ self.old.plan }
    {
        let next = self.present.synced(self.alloc)?;
        self.pass(next)
    }
}

impl Disk for MemDisk {
    ghost use Rattle.std.specs.Prelude.{map, Some};
    ghost use Rattle.commit_file.specs.Tapes.{durable_of};

    ghost state = { λ d. Some d.present };

    ghost past = { λ d. map durable_of d.past };

    ghost disk_faults = { λ d. d.plan.faults };

    fn length(&mut self) -> Result<u64, DiskFault> {
        self.begin()?;
        Ok(self.present.length())
    }

    fn read(&mut self, at: u64, buf: &mut [u8]) -> Result<usize, DiskFault> {
        self.begin()?;
        Ok(self.present.read(at, buf))
    }

    fn write_at(&mut self, at: u64, bytes: &[u8]) -> Result<(), DiskFault> {
        self.begin()?;
        if let Some(end) = (at as usize).checked_add(bytes.len()) {
            if bytes.is_empty() {
                return Ok(());
            }
            if at <= self.present.length() && self.write(at as usize, end, bytes).is_ok() {
                return Ok(());
            }
        }
        self.plan.add_fault();
        Err(DiskFault)
    }

    fn cut(&mut self, to: u64) -> Result<(), DiskFault> {
        self.begin()?;
        if self.shorten(to).is_ok() {
            return Ok(());
        }
        self.plan.add_fault();
        Err(DiskFault)
    }

    fn sync(&mut self) -> Result<(), DiskFault> {
        self.begin()?;
        if self.settle().is_ok() {
            return Ok(());
        }
        self.plan.add_fault();
        Err(DiskFault)
    }

    fn disk_faults(&self) -> u64 {
        self.plan.faults()
    }
}
