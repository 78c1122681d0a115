//! What a file holds, whatever its payloads say, and the bytes of it.

ghost use Rattle.std.specs.Prelude.{◌≡◌, ◌≤◌, ◌++◌, length, IfOk, OnOk};
ghost use Rattle.commit_file.specs.Files as files;
ghost use Rattle.commit_file.specs.Standing as standing;
ghost use Rattle.file_oracle.specs.Verdicts as spec;

use crate::frames::{MARK, OPEN, behind_frames, payloads, payloads_marked};
use commit_file::Version;
use plain_data::{Sequence, Text};
use std::alloc::{AllocError, Global};

/// How many bytes a header has.
const HEADER_LENGTH: usize = 12;

/// The longest file that holds nothing, whatever its bytes are.
pub(crate) const LONGEST_EMPTY: usize = 13;

/// Payloads of version 2; or those of version 1, and behind a mark those of version 2.
#[derive(Debug, Drop)]
pub(crate) enum Contents {
    Current(Sequence<Text>),
    Marked(Sequence<Text>, Sequence<Text>),
}

/// The header of a file of a version.
fn header(version: Version) -> [u8; HEADER_LENGTH]
    ensures { result ≡ files.header version }
{
    match version {
        Version::One => *b"DIAMONDJ\0\0\0\x01",
        Version::Two => *b"DIAMONDJ\0\0\0\x02",
    }
}

/// Whether bytes begin with the header of a version.
pub(crate) fn has_header(version: Version, bytes: &[u8]) -> bool
    requires { 12 ≤ length bytes.now }
    ensures { result ≡ spec.has_header version bytes.now }
{
    let (front, _) = bytes.split_at(HEADER_LENGTH);
    front == header(version).as_slice()
}

/// What the bytes behind a header stand for.
fn contents_of(alloc: Global, bytes: &[u8]) -> Result<Contents, AllocError>
    requires { 12 ≤ length bytes.now }
    ensures { IfOk result (λ c. spec.contents_in c ≡ standing.contents_of bytes.now) }
{
    let frames = &bytes[HEADER_LENGTH..];
    let first = payloads(alloc, frames)?;
    if has_header(Version::One, bytes) {
        let marked = payloads_marked(alloc, behind_frames(frames))?;
        return Ok(Contents::Marked(first, marked));
    }
    Ok(Contents::Current(first))
}

/// The contents of the file that recovery leaves.
pub(crate) fn left_of(alloc: Global, bytes: &[u8]) -> Result<Contents, AllocError>
    ensures { IfOk result (λ c. spec.contents_in c ≡ spec.left_of bytes.now) }
{
    if bytes.len() <= LONGEST_EMPTY {
        return Ok(Contents::Current(Sequence::new(alloc)));
    }
    contents_of(alloc, bytes)
}

/// Adds the frame of a payload. One whose length four bytes don't tell is answered as want of memory.
fn add_frame(file: &mut Text, payload: &[u8]) -> Result<(), AllocError>
    ensures { OnOk result (file.new ≡ file.old ++ files.frame payload.now) }
{
    let Ok(length) = u32::try_from(payload.len()) else {
        return Err(AllocError);
    };
    file.push(OPEN)?;
    file.extend_from_slice(&length.to_be_bytes())?;
    file.extend_from_slice(payload)
}

/// Adds the frames of payloads.
fn add_frames(file: &mut Text, payloads: &[Text]) -> Result<(), AllocError>
    ensures { OnOk result (file.new ≡ file.old ++ files.frames payloads.now) }
{
    let Some((payload, rest)) = payloads.split_first() else {
        return Ok(());
    };
    add_frame(file, payload.as_slice())?;
    add_frames(file, rest)
}

/// The header, and the frames of payloads.
fn begun(alloc: Global, version: Version, payloads: &[Text]) -> Result<Text, AllocError>
    ensures { IfOk result (λ file. file ≡ files.header version ++ files.frames payloads.now) }
{
    let mut file = Text::from_slice(alloc, &header(version))?;
    add_frames(&mut file, payloads)?;
    Ok(file)
}

/// What is written of contents before the closed gate.
pub(crate) fn opened(alloc: Global, contents: &Contents) -> Result<Text, AllocError>
    ensures { IfOk result (λ file. file ≡ files.opened (spec.contents_in contents.now)) }
{
    match contents {
        Contents::Current(payloads) => begun(alloc, Version::Two, payloads.as_slice()),
        Contents::Marked(old, payloads) => {
            let mut file = begun(alloc, Version::One, old.as_slice())?;
            file.push(MARK)?;
            add_frames(&mut file, payloads.as_slice())?;
            Ok(file)
        }
    }
}
