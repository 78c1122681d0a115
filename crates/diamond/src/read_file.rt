//! A file of the system's, opened to be read alone. It tells nothing of what the file holds.
//!
//! It isn't made where there is none, and no call changes it. While it is read, the system's lock keeps a server from using it;
//! other readers may.

ghost use Rattle.std.specs.Prelude.{◌≡◌, ◌≤◌, length, IfOk};
ghost use Rattle.dio_core.specs.Counts.{one_more, Fails};

use dio_core::{Count, Disk, DiskFault, FileFault};
use std::fs::{File, Files, TryLockError};
use std::io::ErrorKind;
use std::marker::Model;
use std::os::unix::fs::FileExt;
use std::{fmt, fs, io};

/// Why a file can't be read.
#[derive(Clone, Copy, Debug, PartialEq, Eq)]
pub enum ReadFault {
    /// There is none at the path.
    Missing,
    /// The system refused.
    Refused(FileFault),
}

impl fmt::Display for ReadFault {
    fn fmt<W: fmt::Write>(&self, f: &mut fmt::Formatter<W>) -> fmt::Result {
        match self {
            ReadFault::Missing => write!(f, "there is none"),
            ReadFault::Refused(fault) => write!(f, "{fault}"),
        }
    }
}

impl From<io::Error> for ReadFault {
    fn from(error: io::Error) -> ReadFault {
        match error.kind() {
            ErrorKind::NotFound => ReadFault::Missing,
            _ => ReadFault::Refused(FileFault::from(error)),
        }
    }
}

/// Takes the system's lock on a file, which other readers may have too.
fn lock(file: &File) -> Result<(), ReadFault> {
    match file.try_lock_shared() {
        Ok(()) => Ok(()),
        Err(TryLockError::WouldBlock) => Err(ReadFault::Refused(FileFault::InUse)),
        Err(TryLockError::Error(error)) => Err(ReadFault::from(error)),
    }
}

/// The regular file at this path, locked.
fn opened<R: Files<File = File>>(files: &R, path: &str) -> Result<File, ReadFault> {
    if !fs::metadata(files, path)?.is_file() {
        return Err(ReadFault::Refused(FileFault::NotRegular));
    }
    let file = File::open(files, path)?;
    lock(&file)?;
    Ok(file)
}

/// A file that is read and never written: each call that would change it fails.
#[derive(Drop)]
pub struct ReadFile {
    file: Result<File, ReadFault>,
    last_fault: Option<ReadFault>,
    faults: Count,
}

impl Model for ReadFile {
    ghost use Rattle.std.specs.Prelude.{ℕ};

    ghost Value = { ℕ };

    ghost view = { λ f. f.faults };
}

impl ReadFile {
    /// The file at this path.
    pub fn open<R: Files<File = File>>(files: &R, path: &str) -> ReadFile
        ensures { result ≡ 0 }
    {
        ReadFile {
            file: opened(files, path),
            last_fault: None,
            faults: Count::new(),
        }
    }

    /// Why the last call that failed did.
    pub fn last_fault(&self) -> Option<ReadFault> {
        self.last_fault
    }

    fn to_read(&self) -> Result<&File, ReadFault> {
        match &self.file {
            Ok(file) => Ok(file),
            Err(fault) => Err(*fault),
        }
    }

    fn try_length(&self) -> Result<u64, ReadFault> {
        Ok(self.to_read()?.metadata()?.len())
    }

    fn try_read(&self, at: u64, buf: &mut [u8]) -> Result<usize, ReadFault>
        ensures { IfOk result (λ n. n ≤ length buf.new) }
    {
        Ok(self.to_read()?.read_at(buf, at)?)
    }

    /// Counts a fault.
    fn fail(&mut self, fault: ReadFault) -> DiskFault
        ensures { self.new ≡ one_more self.old }
    {
        self.last_fault = Some(fault);
        self.faults.add_one();
        DiskFault
    }

    /// A call that would change the file.
    fn refuse(&mut self) -> Result<(), DiskFault>
        ensures { Fails result self.old self.new }
    {
        Err(self.fail(ReadFault::Refused(FileFault::Forbidden)))
    }
}

impl Disk for ReadFile {
    ghost use Rattle.std.specs.Prelude.{[], None};

    ghost state = { λ _. None };

    ghost past = { λ _. [] };

    ghost disk_faults = { λ f. f };

    fn length(&mut self) -> Result<u64, DiskFault> {
        match self.try_length() {
            Ok(length) => Ok(length),
            Err(fault) => Err(self.fail(fault)),
        }
    }

    fn read(&mut self, at: u64, buf: &mut [u8]) -> Result<usize, DiskFault> {
        match self.try_read(at, buf) {
            Ok(count) => Ok(count),
            Err(fault) => Err(self.fail(fault)),
        }
    }

    fn write_at(&mut self, _at: u64, _bytes: &[u8]) -> Result<(), DiskFault>
        ensures { Fails result self.old self.new }
    {
        self.refuse()
    }

    fn cut(&mut self, _to: u64) -> Result<(), DiskFault>
        ensures { Fails result self.old self.new }
    {
        self.refuse()
    }

    fn sync(&mut self) -> Result<(), DiskFault>
        ensures { Fails result self.old self.new }
    {
        self.refuse()
    }

    fn disk_faults(&self) -> u64 {
        self.faults.get()
    }
}
