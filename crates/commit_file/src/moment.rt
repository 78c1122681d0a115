//! A moment of a disk in memory.

ghost use Rattle.std.specs.Prelude.{◌≡◌, ◌+◌, ◌^◌, ◌<◌, ◌≤◌, ℕ, List, [], ◌∷◌, length, Result, IfOk, OnOk, OnErr};
ghost use Rattle.dio_core.specs.Disks.{MayLeave, Writes, Shortens, Syncs, Shows, overwritten};
ghost use Rattle.commit_file.specs.Tapes.{IsSpoilt, IsImage};
ghost use Rattle.commit_file.specs.Through.{resting};

use plain_data::{Sequence, Text};
use std::alloc::{AllocError, Global};
use std::marker::Model;

/// What a crash leaves of what is not synced.
#[derive(Clone, Copy, Debug, PartialEq, Eq)]
pub enum Torn {
    /// The old bytes, and the old length.
    Old,
    /// The new bytes, and the new length.
    New,
    /// Ones in each range written since, and the new length.
    Ones,
}

/// What a disk reads as at a moment, and what a crash may leave then.
#[derive(Drop)]
pub(crate) struct Moment {
    file: Text,
    synced: Text,
    loose: Sequence<(u64, u64)>,
    least: u64,
    greatest: u64,
}

impl Model for Moment {
    ghost use Rattle.std.specs.Prelude.{length, ◌≤◌};
    ghost use Rattle.dio_core.specs.Disks.{DiskState, Durable, MayLeave};
    ghost use Rattle.commit_file.specs.Tapes.{IsCoherent, state_code};

    ghost Value = { DiskState };

    ghost coded = { state_code };

    ghost view = { λ m. record { file = m.file; durable = record { synced = m.synced; loose = m.loose; least = m.least; greatest = m.greatest } } };

    ghost invariant = { λ m. IsCoherent (record { file = m.file; durable = record { synced = m.synced; loose = m.loose; least = m.least; greatest = m.greatest } }) };
}

impl Moment {
    pub(crate) fn new(alloc: Global, bytes: &[u8]) -> Result<Moment, AllocError>
        ensures { IfOk result (λ m. m ≡ resting bytes.now) }
    {
        let length = bytes.len() as u64;
        Ok(Moment {
            file: Text::from_slice(alloc, bytes)?,
            synced: Text::from_slice(alloc, bytes)?,
            loose: Sequence::new(alloc),
            least: length,
            greatest: length,
        })
    }

    pub(crate) fn copy(&self, alloc: Global) -> Result<Moment, AllocError>
        ensures { IfOk result (λ m. m ≡ self.now) }
    {
        Ok(Moment {
            file: self.file.clone()?,
            synced: self.synced.clone()?,
            loose: Sequence::from_slice(alloc, self.loose.as_slice())?,
            least: self.least,
            greatest: self.greatest,
        })
    }

    pub(crate) fn length(&self) -> u64
        ensures { result ≡ length self.now.file }
    {
        self.file.len() as u64
    }

    pub(crate) fn read(&self, at: u64, buf: &mut [u8]) -> usize
        requires { 0 < length buf.old }
        ensures within { result ≤ length buf.new }
        ensures shows { Shows self.now.file at result buf.new }
    {
        show(self.file.as_slice(), at as usize, buf)
    }

    /// After a write within the file or at its end.
    pub(crate) fn written(
        &self,
        alloc: Global,
        at: usize,
        end: usize,
        bytes: &[u8],
    ) -> Result<Moment, AllocError>
        requires within { at ≤ length self.now.file }
        requires end { end ≡ at + length bytes.now }
        requires some { 0 < length bytes.now }
        ensures { IfOk result (λ m. Writes {A = ℕ} {E = ℕ} (Ok 0) at bytes.now self.now m) }
    {
        let mut loose = Sequence::from_slice(alloc, self.loose.as_slice())?;
        loose.insert(0, (at as u64, end as u64))?;
        Ok(Moment {
            file: spliced(alloc, self.file.as_slice(), at, end, bytes)?,
            synced: self.synced.clone()?,
            loose,
            least: self.least,
            greatest: self.greatest.max(end as u64),
        })
    }

    /// After a cut.
    pub(crate) fn cut(&self, alloc: Global, to: u64) -> Result<Moment, AllocError>
        requires { to ≤ length self.now.file }
        ensures { IfOk result (λ m. Shortens {A = ℕ} {E = ℕ} (Ok 0) to self.now m) }
    {
        Ok(Moment {
            file: Text::from_slice(alloc, &self.file.as_slice()[..to as usize])?,
            synced: self.synced.clone()?,
            loose: Sequence::from_slice(alloc, self.loose.as_slice())?,
            least: self.least.min(to),
            greatest: self.greatest,
        })
    }

    /// After a sync.
    pub(crate) fn synced(&self, alloc: Global) -> Result<Moment, AllocError>
        ensures { IfOk result (λ m. Syncs {A = ℕ} {E = ℕ} (Ok 0) self.now m) }
    {
        Moment::new(alloc, self.file.as_slice())
    }

    /// What a crash may leave then.
    pub(crate) fn image(&self, alloc: Global, torn: Torn) -> Result<Text, AllocError>
        ensures image { IfOk result (IsImage torn self.now) }
        ensures may_leave { IfOk result (MayLeave self.now.durable) }
    {
        match torn {
            Torn::Old => Text::from_slice(alloc, self.synced.as_slice()),
            Torn::New => Text::from_slice(alloc, self.file.as_slice()),
            Torn::Ones => spoilt(alloc, self.file.as_slice(), self.loose.as_slice()),
        }
    }
}

/// Bytes with ones in a range.
fn spoil(bytes: &mut Text, from: u64, to: u64)
    ensures long { length bytes.new ≡ length bytes.old }
    ensures stays { IsSpoilt ((from, to) ∷ []) bytes.old bytes.new }
{
    let end = to.min(bytes.len() as u64);
    for at in from..end {
        bytes.set(at as usize, 1);
    }
}

/// Bytes with ones in each of these ranges.
fn spoilt(alloc: Global, bytes: &[u8], ranges: &[(u64, u64)]) -> Result<Text, AllocError>
    ensures { IfOk result (λ image. (length image ≡ length bytes.now) × IsSpoilt ranges.now bytes.now image) }
{
    let mut image = Text::from_slice(alloc, bytes)?;
    for (from, to) in ranges {
        spoil(&mut image, *from, *to);
    }
    Ok(image)
}

/// A file with these bytes at a place, up to an end.
fn spliced(
    alloc: Global,
    file: &[u8],
    at: usize,
    end: usize,
    bytes: &[u8],
) -> Result<Text, AllocError>
    requires within { at ≤ length file.now }
    requires end { end ≡ at + length bytes.now }
    ensures { IfOk result (λ text. text ≡ overwritten file.now at bytes.now) }
{
    let mut text = Text::from_slice(alloc, &file[..at])?;
    text.extend_from_slice(bytes)?;
    text.extend_from_slice(&file[end.min(file.len())..])?;
    Ok(text)
}

/// Shows the bytes of a file from a place on.
fn show(file: &[u8], at: usize, buf: &mut [u8]) -> usize
    requires { 0 < length buf.old }
    ensures within { result ≤ length buf.new }
    ensures shows { Shows file.now at result buf.new }
{
    if at >= file.len() {
        return 0;
    }
    let rest = &file[at..];
    let count = rest.len().min(buf.len());
    buf[..count].copy_from_slice(&rest[..count]);
    count
}
