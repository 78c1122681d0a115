//! The frames of a file.

ghost use Rattle.std.specs.Prelude.{◌≡◌, ◌<◌, ◌≤◌, ◌-◌, ◌+◌, ◌^◌, ◌++◌, ◌∷◌, [], true, false, length, IfOk, IfErr, OnOk, OnErr, MatchOption};
ghost use Rattle.commit_file.specs.declared.recover_error.RecoverError.TheVariants as error;
ghost use Rattle.commit_file.specs.Files.{frame};
ghost use Rattle.commit_file.specs.Kept.{payloads, payloads_marked, checked};
ghost use Rattle.commit_file.specs.Recovering.{IsScanned, IsRefused, disk_failed};

use crate::chain::Chain;
use crate::gate::{MARK, OPEN};
use crate::recover_error::RecoverError;
use crate::version::Version;

/// The payload of the open frame that is whole and begins here, and what stands behind it.
fn next_frame(bytes: &[u8]) -> Option<(&[u8], &[u8])>
    ensures { MatchOption result (payloads bytes.now ≡ [])
        (λ parts. (bytes.now ≡ frame parts.0.now ++ parts.1.now) × (length parts.0.now < 2 ^ 32)) }
{
    let Some((gate, behind)) = bytes.split_first() else {
        return None;
    };
    if *gate != OPEN || behind.len() < 4 {
        return None;
    }
    let count = u32::from_be_bytes([behind[0], behind[1], behind[2], behind[3]]) as usize;
    let rest = &behind[4..];
    if rest.len() < count {
        return None;
    }
    Some(rest.split_at(count))
}

/// What stands behind the mark that stands here.
pub(crate) fn behind_mark(bytes: &[u8]) -> Option<&[u8]>
    ensures { MatchOption result (payloads_marked bytes.now ≡ []) (λ rest. bytes.now ≡ 2 ∷ rest.now) }
{
    let Some((mark, rest)) = bytes.split_first() else {
        return None;
    };
    if *mark != MARK {
        return None;
    }
    Some(rest)
}

/// The place in the file of what is left of bytes that begin at a place.
pub(crate) fn place(at: u64, bytes: &[u8], rest: &[u8]) -> u64
    requires within { length rest.now ≤ length bytes.now }
    requires fits { at + length bytes.now < 2 ^ 64 }
    ensures { result ≡ at + (length bytes.now - length rest.now) }
{
    at + (bytes.len() - rest.len()) as u64
}

/// Goes on behind a payload that was taken. One that doesn't follow is told by its place, and never as want of memory.
fn goes_on(took: bool, at: u64) -> Result<(), RecoverError>
    ensures goes { OnOk result (took ≡ true) }
    ensures stops { OnErr result (took ≡ false) }
    ensures told { IfErr result (λ e. e ≡ error.NotJournal at) }
{
    if took {
        Ok(())
    } else {
        Err(RecoverError::NotJournal(at))
    }
}

/// Takes the payloads of the open frames that begin here, which is at a place in the file, and gives what stands behind
/// them. `NotJournal` names the frame of the first payload that doesn't follow.
pub(crate) fn scan<'a, C: Chain>(
    chain: &mut C,
    version: Version,
    at: u64,
    bytes: &'a [u8],
) -> Result<&'a [u8], RecoverError>
    requires { at + length bytes.now < 2 ^ 64 }
    ensures scanned { IfOk result (λ rest.
        IsScanned C.follows version (C.payloads chain.old) bytes.now rest.now (C.payloads chain.new)) }
    ensures refused { IfErr result
        (IsRefused (checked C.follows version (C.payloads chain.old) at (payloads bytes.now))) }
    ensures no_fault { disk_failed result ≡ false }
{
    let mut rest = bytes;
    while let Some((payload, behind)) = next_frame(rest) {
        let took = chain.take(version, payload)?;
        goes_on(took, place(at, bytes, rest))?;
        rest = behind;
    }
    Ok(rest)
}
