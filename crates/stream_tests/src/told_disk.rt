//! A disk in memory that tells all that it holds, which shows that the contract of [`Disk`] can be met with content.
//! Each write, cut and sync keeps what a crash might have left before it.

ghost use Rattle.std.specs.Prelude.{◌≡◌, ◌+◌, ◌<◌, ◌≤◌, List, Some, length, IfOk, OnOk, OnErr};
ghost use Rattle.dio_core.specs.Disks.{loosened, overwritten, Writes, Shortens, Syncs};
ghost use Rattle.dio_core.specs.Moments.{Passes};
ghost use Rattle.dio_core.specs.Told.{WhereTold};

use dio_core::{Count, Disk, DiskFault};
use plain_data::{Sequence, Text};
use std::alloc::{AllocError, Global};
use std::marker::Model;

/// What a crash might leave at a moment.
#[derive(Drop)]
struct Moment {
    synced: Text,
    loose: Sequence<(u64, u64)>,
    least: u64,
    greatest: u64,
}

impl Model for Moment {
    ghost use Rattle.dio_core.specs.Disks.{Durable};

    ghost Value = { Durable };

    ghost view = { λ m. record { synced = m.synced; loose = m.loose; least = m.least; greatest = m.greatest } };
}

impl Moment {
    fn copy(&self, alloc: Global) -> Result<Moment, AllocError>
        ensures { IfOk result (λ moment. moment ≡ self.now) }
    {
        Ok(Moment {
            synced: self.synced.clone()?,
            loose: Sequence::from_slice(alloc, self.loose.as_slice())?,
            least: self.least,
            greatest: self.greatest,
        })
    }

    fn loosen(&mut self, from: u64, to: u64) -> Result<(), AllocError>
        ensures ok { OnOk result (self.new ≡ loosened from to self.old) }
        ensures err { OnErr result (self.new ≡ self.old) }
    {
        self.loose.insert(0, (from, to))?;
        self.greatest = self.greatest.max(to);
        Ok(())
    }
}

#[derive(Drop)]
struct ToldDisk {
    alloc: Global,
    file: Text,
    now: Moment,
    past: Sequence<Moment>,
    faults: Count,
}

impl ToldDisk {
    fn new(alloc: Global, bytes: &[u8]) -> Result<ToldDisk, AllocError> {
        let length = bytes.len() as u64;
        Ok(ToldDisk {
            alloc,
            file: Text::from_slice(alloc, bytes)?,
            now: Moment {
                synced: Text::from_slice(alloc, bytes)?,
                loose: Sequence::new(alloc),
                least: length,
                greatest: length,
            },
            past: Sequence::new(alloc),
            faults: Count::new(),
        })
    }

    /// Writes within the file or at its end.
    fn write(&mut self, at: usize, end: usize, bytes: &[u8]) -> Result<(), AllocError>
        requires within { at ≤ length self.old.file }
        requires end { end ≡ at + length bytes.now }
        requires some { 0 < length bytes.now }
        ensures writes { WhereTold (Writes result at bytes.now) (⟦<ToldDisk as Disk>⟧.state self.old) (⟦<ToldDisk as Disk>⟧.state self.new) }
        ensures past { Passes self.old.past (⟦<ToldDisk as Disk>⟧.state self.old) self.new.past (⟦<ToldDisk as Disk>⟧.state self.new) }
        ensures faults { self.new.faults ≡ self.old.faults }
    {
        self.past.push(self.now.copy(self.alloc)?)?;
        let file = spliced(self.alloc, self.file.as_slice(), at, end, bytes)?;
        self.now.loosen(at as u64, end as u64)?;
        self.file = file;
        Ok(())
    }

    fn shorten(&mut self, to: u64) -> Result<(), AllocError>
        requires { to ≤ length self.old.file }
        ensures cuts { WhereTold (Shortens result to) (⟦<ToldDisk as Disk>⟧.state self.old) (⟦<ToldDisk as Disk>⟧.state self.new) }
        ensures past { Passes self.old.past (⟦<ToldDisk as Disk>⟧.state self.old) self.new.past (⟦<ToldDisk as Disk>⟧.state self.new) }
        ensures faults { self.new.faults ≡ self.old.faults }
    {
        self.past.push(self.now.copy(self.alloc)?)?;
        self.file.truncate(to as usize);
        self.now.least = self.now.least.min(to);
        Ok(())
    }

    fn settle(&mut self) -> Result<(), AllocError>
        ensures syncs { WhereTold (Syncs result) (⟦<ToldDisk as Disk>⟧.state self.old) (⟦<ToldDisk as Disk>⟧.state self.new) }
        ensures past { Passes self.old.past (⟦<ToldDisk as Disk>⟧.state self.old) self.new.past (⟦<ToldDisk as Disk>⟧.state self.new) }
        ensures faults { self.new.faults ≡ self.old.faults }
    {
        let length = self.file.len() as u64;
        let settled = Moment {
            synced: self.file.clone()?,
            loose: Sequence::new(self.alloc),
            least: length,
            greatest: length,
        };
        self.past.push(self.now.copy(self.alloc)?)?;
        self.now = settled;
        Ok(())
    }
}

/// A file with these bytes at a place, up to an end.
fn spliced(
    alloc: Global,
    file: &[u8],
    at: usize,
    end: usize,
    bytes: &[u8],
) -> Result<Text, AllocError>
    requires within { at ≤ length file.now }
    requires end { end ≡ at + length bytes.now }
    ensures { IfOk result (λ text. text ≡ overwritten file.now at bytes.now) }
{
    let mut text = Text::from_slice(alloc, &file[..at])?;
    text.extend_from_slice(bytes)?;
    text.extend_from_slice(&file[end.min(file.len())..])?;
    Ok(text)
}

impl Disk for ToldDisk {
    ghost state = { λ d. Some (record { file = d.file; durable = d.now }) };

    ghost past = { λ d. d.past };

    ghost disk_faults = { λ d. d.faults };

    fn length(&mut self) -> Result<u64, DiskFault> {
        Ok(self.file.len() as u64)
    }

    fn read(&mut self, at: u64, buf: &mut [u8]) -> Result<usize, DiskFault> {
        let at = at as usize;
        if at >= self.file.len() {
            return Ok(0);
        }
        let rest = &self.file.as_slice()[at..];
        let count = rest.len().min(buf.len());
        buf[..count].copy_from_slice(&rest[..count]);
        Ok(count)
    }

    fn write_at(&mut self, at: u64, bytes: &[u8]) -> Result<(), DiskFault> {
        let at = at as usize;
        if let Some(end) = at.checked_add(bytes.len()) {
            if bytes.is_empty() {
                return Ok(());
            }
            if at <= self.file.len() && self.write(at, end, bytes).is_ok() {
                return Ok(());
            }
        }
        self.faults.add_one();
        Err(DiskFault)
    }

    fn cut(&mut self, to: u64) -> Result<(), DiskFault> {
        if self.shorten(to).is_ok() {
            return Ok(());
        }
        self.faults.add_one();
        Err(DiskFault)
    }

    fn sync(&mut self) -> Result<(), DiskFault> {
        if self.settle().is_ok() {
            return Ok(());
        }
        self.faults.add_one();
        Err(DiskFault)
    }

    fn disk_faults(&self) -> u64 {
        self.faults.get()
    }
}

/// Whether a write behind the end, a sync and a read give what the disk model says.
fn reads_what_was_written(disk: &mut ToldDisk) -> bool {
    let mut buf = [0; 8];
    disk.write_at(2, b"de").is_ok()
        && disk.sync().is_ok()
        && matches!(disk.read(1, &mut buf), Ok(3))
        && buf == *b"bde\0\0\0\0\0"
        && matches!(disk.length(), Ok(4))
        && disk.past.len() == 2
}

/// Whether a write of nothing, wherever it is, changes nothing.
fn keeps_at_an_empty_write(disk: &mut ToldDisk) -> bool {
    disk.write_at(9, b"").is_ok()
        && matches!(disk.length(), Ok(4))
        && disk.now.greatest == 4
        && disk.past.len() == 2
}

#[test]
fn a_told_disk_reads_what_was_written(rt: HostRuntime) {
    match ToldDisk::new(rt.alloc(), b"abc") {
        Ok(mut disk) => {
            assert!(rt; reads_what_was_written(&mut disk));
            assert!(rt; keeps_at_an_empty_write(&mut disk));
            assert!(rt; matches!(disk.write_at(6, b"f"), Err(DiskFault)));
            assert!(rt; disk.disk_faults() == 1);
        }
        Err(_) => assert!(rt; false),
    }
}
