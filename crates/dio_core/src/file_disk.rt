//! A file of the system's as a disk. It tells nothing of what the file holds.
//!
//! The file is opened as it stands, and made where there is none. Its folder is synced then, so that the file's name
//! outlasts a crash as well. The system's lock keeps each other process that opens the file in this way from using it, and
//! goes with the process that has it, however that ends.

ghost use Rattle.std.specs.Prelude.{◌≡◌, ◌≤◌, ◌<◌, ◌+◌, ◌^◌, length, IfOk, OnOk};
ghost use Rattle.dio_core.specs.Counts.{one_more};

use crate::count::Count;
use crate::disk::{Disk, DiskFault};
use std::fs::{File, Files, TryLockError};
use std::io::ErrorKind;
use std::marker::Model;
use std::os::unix::fs::FileExt;
use std::path::Path;
use std::{fmt, fs, io};

/// Why a call on a file failed.
#[derive(Clone, Copy, Debug, PartialEq, Eq)]
pub enum FileFault {
    /// A folder on the file's path isn't there.
    NoFolder,
    /// What stands at the path is a folder, a pipe or a device.
    NotRegular,
    /// Another process uses the file.
    InUse,
    /// The process may not read or write it.
    Forbidden,
    /// The disk is full, or the file is as long as it may be.
    Full,
    /// The system took a part of the bytes, and then none of the rest.
    ShortWrite,
    /// A sync has failed before, so the system may have dropped what was written.
    Unsynced,
    /// The system refused with this number.
    System(i32),
}

impl fmt::Display for FileFault {
    fn fmt<W: fmt::Write>(&self, f: &mut fmt::Formatter<W>) -> fmt::Result {
        match self {
            FileFault::NoFolder => write!(f, "a folder on its path isn't there"),
            FileFault::NotRegular => write!(f, "it isn't a regular file"),
            FileFault::InUse => write!(f, "another process uses it"),
            FileFault::Forbidden => write!(f, "it may not be read and written"),
            FileFault::Full => write!(f, "the disk is full"),
            FileFault::ShortWrite => write!(f, "a write was cut short"),
            FileFault::Unsynced => write!(f, "a sync has failed before"),
            FileFault::System(number) => write!(f, "the system refused with error {number}"),
        }
    }
}

impl From<io::Error> for FileFault {
    fn from(error: io::Error) -> FileFault {
        match error.kind() {
            ErrorKind::NotFound | ErrorKind::NotADirectory => FileFault::NoFolder,
            ErrorKind::IsADirectory => FileFault::NotRegular,
            ErrorKind::PermissionDenied | ErrorKind::ReadOnlyFilesystem => FileFault::Forbidden,
            ErrorKind::StorageFull | ErrorKind::QuotaExceeded | ErrorKind::FileTooLarge => {
                FileFault::Full
            }
            ErrorKind::WriteZero => FileFault::ShortWrite,
            _ => FileFault::System(error.raw_os_error().unwrap_or(0)),
        }
    }
}

/// Whether something stands at a path that is no regular file.
fn is_other<R: Files>(files: &R, path: &str) -> bool {
    match fs::metadata(files, path) {
        Ok(found) => !found.is_file(),
        Err(_) => false,
    }
}

/// Takes the system's lock on a file, which another process may have.
fn lock(file: &File) -> Result<(), FileFault> {
    match file.try_lock() {
        Ok(()) => Ok(()),
        Err(TryLockError::WouldBlock) => Err(FileFault::InUse),
        Err(TryLockError::Error(error)) => Err(FileFault::from(error)),
    }
}

/// Makes the names in the folder of a path outlast a crash.
fn sync_folder<R: Files<File = File>>(files: &R, path: &str) -> Result<(), FileFault> {
    let folder = match Path::new(path).parent() {
        Some(folder) if !folder.as_str().is_empty() => folder.as_str(),
        _ => ".",
    };
    File::open(files, folder)?.sync_all()?;
    Ok(())
}

/// The file at this path, locked.
fn opened<R: Files<File = File>>(files: &R, path: &str) -> Result<File, FileFault> {
    if is_other(files, path) {
        return Err(FileFault::NotRegular);
    }
    let file = File::options()
        .read(true)
        .write(true)
        .create(true)
        .open(files, path)?;
    lock(&file)?;
    sync_folder(files, path)?;
    Ok(file)
}

/// Reads from a place on.
fn read_from(file: &File, at: u64, buf: &mut [u8]) -> Result<usize, FileFault>
    ensures { IfOk result (λ n. n ≤ length buf.new) }
{
    Ok(file.read_at(buf, at)?)
}

/// Writes all the bytes at a place.
fn write_to(file: &File, at: u64, bytes: &[u8]) -> Result<(), FileFault>
    ensures { OnOk result (at + length bytes.now < 2 ^ 64) }
{
    if at.checked_add(bytes.len() as u64).is_none() {
        return Err(FileFault::Full);
    }
    file.write_all_at(bytes, at)?;
    Ok(())
}

/// A regular file, which no other process uses meanwhile. Where it can't be had, each call fails.
#[derive(Drop)]
pub struct FileDisk {
    file: Result<File, FileFault>,
    /// Whether a sync has failed. What was written before it may be gone then, and no later sync would say so.
    unsynced: bool,
    last_fault: Option<FileFault>,
    faults: Count,
}

impl Model for FileDisk {
    ghost use Rattle.std.specs.Prelude.{ℕ};

    ghost Value = { ℕ };

    ghost view = { λ d. d.faults };
}

impl FileDisk {
    /// The file at this path.
    pub fn open<R: Files<File = File>>(files: &R, path: &str) -> FileDisk
        ensures { result ≡ 0 }
    {
        FileDisk {
            file: opened(files, path),
            unsynced: false,
            last_fault: None,
            faults: Count::new(),
        }
    }

    /// Why the last call that failed did.
    pub fn last_fault(&self) -> Option<FileFault> {
        self.last_fault
    }

    /// The file, to be read.
    fn to_read(&self) -> Result<&File, FileFault> {
        match &self.file {
            Ok(file) => Ok(file),
            Err(fault) => Err(*fault),
        }
    }

    /// The file, to be changed: after a sync that failed no change may be relied on.
    fn to_change(&self) -> Result<&File, FileFault> {
        let file = self.to_read()?;
        if self.unsynced {
            return Err(FileFault::Unsynced);
        }
        Ok(file)
    }

    /// Counts a fault.
    fn fail(&mut self, fault: FileFault) -> DiskFault
        ensures { self.new ≡ one_more self.old }
    {
        self.last_fault = Some(fault);
        self.faults.add_one();
        DiskFault
    }

    fn try_length(&self) -> Result<u64, FileFault> {
        Ok(self.to_read()?.metadata()?.len())
    }

    fn try_read(&self, at: u64, buf: &mut [u8]) -> Result<usize, FileFault>
        ensures { IfOk result (λ n. n ≤ length buf.new) }
    {
        read_from(self.to_read()?, at, buf)
    }

    fn try_write(&self, at: u64, bytes: &[u8]) -> Result<(), FileFault>
        ensures { OnOk result (at + length bytes.now < 2 ^ 64) }
    {
        write_to(self.to_change()?, at, bytes)
    }

    fn try_cut(&self, to: u64) -> Result<(), FileFault> {
        self.to_change()?.set_len(to)?;
        Ok(())
    }

    fn try_sync(&self) -> Result<(), FileFault> {
        self.to_change()?.sync_all()?;
        Ok(())
    }
}

impl Disk for FileDisk {
    ghost use Rattle.std.specs.Prelude.{[], None};

    ghost state = { λ _. None };

    ghost past = { λ _. [] };

    ghost disk_faults = { λ d. d };

    fn length(&mut self) -> Result<u64, DiskFault> {
        match self.try_length() {
            Ok(length) => Ok(length),
            Err(fault) => Err(self.fail(fault)),
        }
    }

    fn read(&mut self, at: u64, buf: &mut [u8]) -> Result<usize, DiskFault> {
        match self.try_read(at, buf) {
            Ok(count) => Ok(count),
            Err(fault) => Err(self.fail(fault)),
        }
    }

    fn write_at(&mut self, at: u64, bytes: &[u8]) -> Result<(), DiskFault> {
        match self.try_write(at, bytes) {
            Ok(()) => Ok(()),
            Err(fault) => Err(self.fail(fault)),
        }
    }

    fn cut(&mut self, to: u64) -> Result<(), DiskFault> {
        match self.try_cut(to) {
            Ok(()) => Ok(()),
            Err(fault) => Err(self.fail(fault)),
        }
    }

    fn sync(&mut self) -> Result<(), DiskFault> {
        match self.try_sync() {
            Ok(()) => Ok(()),
            Err(fault) => {
                self.unsynced = true;
                Err(self.fail(fault))
            }
        }
    }

    fn disk_faults(&self) -> u64 {
        self.faults.get()
    }
}
