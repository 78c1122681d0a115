//! A disk whose file is read, and the commits that this tells.

ghost use Rattle.std.specs.Prelude.{◌≡◌};

use crate::counts::Counts;
use crate::frames::FileReading;
use dio_core::{Disk, DiskFault};
use std::alloc::Global;
use std::marker::Model;
use std::sync::Arc;

/// A disk over another one, which counts. Contracts see the disk below, since all that is told is told by it.
#[derive(Drop)]
pub struct CountedDisk<'a, D: Disk> {
    disk: &'a mut D,
    counts: Arc<Counts, Global>,
    reading: FileReading,
    /// How many bytes were read from the beginning on.
    end: u64,
}

impl<'a, D: Disk> Model for CountedDisk<'a, D> {
    ghost Value = { D };

    ghost view = { λ d. d.disk.now };
}

impl<'a, D: Disk> CountedDisk<'a, D> {
    /// A disk over this one, of which nothing was read.
    pub fn new(disk: &'a mut D, counts: Arc<Counts, Global>) -> CountedDisk<'a, D>
        ensures { result ≡ disk.old }
    {
        CountedDisk {
            disk,
            counts,
            reading: FileReading::new(),
            end: 0,
        }
    }

    /// Counts the commits that these bytes of the file tell, where they stand behind what was read so far.
    fn count_commits(&mut self, at: u64, bytes: &[u8])
        ensures { self.new ≡ self.old }
    {
        if at == self.end {
            self.end = self.end.saturating_add(bytes.len() as u64);
            self.reading = self.reading.behind(bytes);
            self.counts.raise_commits(self.reading.commits());
        }
    }
}

impl<'a, D: Disk> Disk for CountedDisk<'a, D> {
    ghost state = { λ d. D.state d };

    ghost past = { λ d. D.past d };

    ghost disk_faults = { λ d. D.disk_faults d };

    fn length(&mut self) -> Result<u64, DiskFault> {
        self.disk.length()
    }

    /// What is read is looked at.
    fn read(&mut self, at: u64, buf: &mut [u8]) -> Result<usize, DiskFault> {
        let count = self.disk.read(at, buf)?;
        self.count_commits(at, &buf[..count]);
        Ok(count)
    }

    fn write_at(&mut self, at: u64, bytes: &[u8]) -> Result<(), DiskFault> {
        self.disk.write_at(at, bytes)
    }

    fn cut(&mut self, to: u64) -> Result<(), DiskFault> {
        self.disk.cut(to)
    }

    fn sync(&mut self) -> Result<(), DiskFault> {
        self.disk.sync()
    }

    fn disk_faults(&self) -> u64 {
        self.disk.disk_faults()
    }
}
