//! Payloads, each held against those before it.

ghost use Rattle.std.specs.Prelude.{◌≡◌, ◌<◌, ◌+◌, ◌^◌, length, IfOk};
ghost use Rattle.commit_file.specs.Files as files;
ghost use Rattle.commit_file.specs.Kept as kept;
ghost use Rattle.file_oracle.specs.Verdicts.{contents_in, reading_in, all_checked};

use crate::contents::Contents;
use crate::follows::Follows;
use crate::frames::BEFORE_PAYLOAD;
use commit_file::Version;
use plain_data::{Sequence, Text};
use std::alloc::{AllocError, Global};

/// The place of the first frame of a file.
const FIRST_FRAME: u64 = 12;

/// Payloads that follow one another, or the place of the first that doesn't.
#[derive(Debug, Drop)]
pub(crate) enum Reading {
    Journal(Sequence<Text>),
    NotJournal(u64),
}

/// How many bytes the frames of payloads have.
fn length_of(payloads: &[Text]) -> u64
    requires { length (files.frames payloads.now) < 2 ^ 64 }
    ensures { result ≡ length (files.frames payloads.now) }
{
    match payloads.split_first() {
        None => 0,
        Some((payload, rest)) => (BEFORE_PAYLOAD + payload.len()) as u64 + length_of(rest),
    }
}

/// Payloads of a version, which stand at a place and are held against those before them.
fn checked<F: Follows>(
    follows: &F,
    version: Version,
    mut before: Sequence<Text>,
    at: u64,
    payloads: &[Text],
) -> Result<Reading, AllocError>
    requires { at + length (files.frames payloads.now) < 2 ^ 64 }
    ensures { IfOk result (λ c. reading_in c ≡ kept.checked F.meaning version before at payloads.now) }
{
    let Some((payload, rest)) = payloads.split_first() else {
        return Ok(Reading::Journal(before));
    };
    if !follows.may_follow(version, before.as_slice(), payload.as_slice())? {
        return Ok(Reading::NotJournal(at));
    }
    let next = at + (BEFORE_PAYLOAD + payload.len()) as u64;
    before.push(payload.clone()?)?;
    checked(follows, version, before, next, rest)
}

/// The payloads of contents.
pub(crate) fn all_checked<F: Follows>(
    alloc: Global,
    follows: &F,
    contents: &Contents,
) -> Result<Reading, AllocError>
    requires { files.end_of (contents_in contents.now) < 2 ^ 64 }
    ensures { IfOk result (λ c. reading_in c ≡ all_checked F.meaning (contents_in contents.now)) }
{
    let none = Sequence::new(alloc);
    match contents {
        Contents::Current(payloads) => {
            checked(
                follows,
                Version::Two,
                none,
                FIRST_FRAME,
                payloads.as_slice(),
            )
        }
        Contents::Marked(old, payloads) => {
            let behind_mark = FIRST_FRAME + length_of(old.as_slice()) + 1;
            match checked(follows, Version::One, none, FIRST_FRAME, old.as_slice())? {
                Reading::Journal(before) => checked(
                    follows,
                    Version::Two,
                    before,
                    behind_mark,
                    payloads.as_slice(),
                ),
                Reading::NotJournal(at) => Ok(Reading::NotJournal(at)),
            }
        }
    }
}
