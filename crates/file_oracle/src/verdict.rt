//! What is said of a file's bytes.

ghost use Rattle.std.specs.Prelude.{◌≡◌, IfOk};
ghost use Rattle.commit_file.specs.Files as files;
ghost use Rattle.commit_file.specs.Kept as kept;
ghost use Rattle.file_oracle.specs.Verdicts as spec;
ghost use Rattle.file_oracle.specs.Verdicts.{reading_of, left_of, IfKept};

use crate::checking::{Reading, all_checked};
use crate::contents::{LONGEST_EMPTY, has_header, left_of, opened};
use crate::follows::Follows;
use crate::frames::CLOSED;
use commit_file::Version;
use plain_data::{Sequence, Text};
use std::alloc::{AllocError, Global};

/// What is kept of a file, and what recovery leaves on the disk.
#[derive(Debug, Drop)]
pub struct Kept {
    pub payloads: Sequence<Text>,
    /// Where the closed gate stands then.
    pub end: u64,
    /// The bytes that the file has then.
    pub file: Text,
}

/// What is said of a file's bytes.
#[derive(Debug, Drop)]
pub enum Verdict {
    Kept(Kept),
    /// From this byte on they are no journal.
    NotJournal(u64),
}

/// Whether bytes begin as no journal does.
fn is_headless(bytes: &[u8]) -> bool
    ensures { result ≡ spec.is_headless bytes.now }
{
    bytes.len() > LONGEST_EMPTY
        && !has_header(Version::Two, bytes)
        && !has_header(Version::One, bytes)
}

/// The verdict on a file of which this is known, and whose whole frames end there.
fn verdict_of(reading: Reading, file: Text, end: u64) -> Verdict
    ensures kept { reading_of result ≡ spec.reading_in reading }
    ensures file { IfKept result (λ k. k.file ≡ file) }
    ensures end { IfKept result (λ k. k.end ≡ end) }
{
    match reading {
        Reading::Journal(payloads) => Verdict::Kept(Kept {
            payloads,
            end,
            file,
        }),
        Reading::NotJournal(at) => Verdict::NotJournal(at),
    }
}

/// What the definition says of a file's bytes. It reads no disk, and changes none.
#[tactic(auto, using(crate::proofs::Judged::headless_told, crate::proofs::Judged::headed_told, crate::proofs::Judged::fits_told))]
pub fn judge<F: Follows>(alloc: Global, follows: &F, bytes: &[u8]) -> Result<Verdict, AllocError>
    ensures kept { IfOk result (λ v. reading_of v ≡ kept.kept F.meaning bytes.now) }

    // Where something is kept, recovery leaves the file of what is kept, which ends there.
    ensures file { IfOk result (λ v. IfKept v (λ k. k.file ≡ files.file (left_of bytes.now))) }
    ensures end { IfOk result (λ v. IfKept v (λ k. k.end ≡ files.end_of (left_of bytes.now))) }
{
    if is_headless(bytes) {
        return Ok(Verdict::NotJournal(0));
    }
    let contents = left_of(alloc, bytes)?;
    let mut file = opened(alloc, &contents)?;
    let end = file.len() as u64;
    let reading = all_checked(alloc, follows, &contents)?;
    file.push(CLOSED)?;
    Ok(verdict_of(reading, file, end))
}
