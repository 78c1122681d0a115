//! Payloads as commits.

ghost use Rattle.std.specs.Prelude.{◌≡◌, ◌≤◌, ℕ, length, IfOk, Ok, Err};
ghost use Rattle.txn_lang.specs.Journals.{own};
ghost use Rattle.record_code.specs.declared.decode_error.DecodeError.TheVariants.{BadRecord};
ghost use Rattle.record_code.specs.Payloads.{decoded};
ghost use Rattle.journal_file.specs.Commits as spec;

use commit_file::Version;
use file_oracle::Follows;
use plain_data::Text;
use record_code::{DecodeError, decode, decode_old};
use std::alloc::{AllocError, Global};
use txn_lang::{Commit, CommitList};

/// Takes payloads for commits: one may stand behind others where it stands for a commit that may stand behind theirs.
#[derive(Clone, Copy)]
pub(crate) struct Commits {
    alloc: Global,
}

/// The commit that a payload of a version is.
fn read(alloc: Global, version: Version, payload: &[u8]) -> Result<Commit, DecodeError>
    ensures read { IfOk result (λ commit. decoded version payload.now ≡ Ok commit) }
    ensures refused { (place : ℕ) → result ≡ Err (BadRecord place) → decoded version payload.now ≡ Err place }
{
    match version {
        Version::One => decode_old(alloc, payload),
        Version::Two => decode(alloc, payload),
    }
}

/// The commit that a payload of a version stands for, if it stands for one.
fn commit_in(alloc: Global, version: Version, payload: &[u8]) -> Result<Option<Commit>, AllocError>
    ensures { IfOk result (λ commit. commit ≡ spec.commit_in version payload.now) }
{
    match read(alloc, version, payload) {
        Ok(commit) => Ok(Some(commit)),
        Err(DecodeError::BadRecord(_)) => Ok(None),
        Err(DecodeError::NoMemory) => Err(AllocError),
    }
}

/// A commit before others, where they are all there.
fn in_front(
    commit: Option<Commit>,
    rest: Option<CommitList>,
) -> Result<Option<CommitList>, AllocError>
    ensures { IfOk result (λ commits. commits ≡ spec.in_front commit rest) }
{
    let Some(commit) = commit else {
        return Ok(None);
    };
    let Some(mut rest) = rest else {
        return Ok(None);
    };
    rest.insert(0, commit)?;
    Ok(Some(rest))
}

/// The commits that payloads stand for, where each stands for one.
fn read_all(alloc: Global, payloads: &[Text]) -> Result<Option<CommitList>, AllocError>
    ensures { IfOk result (λ commits. commits ≡ spec.commits_of payloads.now) }
{
    let Some((payload, behind)) = payloads.split_first() else {
        return Ok(Some(CommitList::new(alloc)));
    };
    let rest = read_all(alloc, behind)?;
    let commit = commit_in(alloc, Version::Two, payload.as_slice())?;
    in_front(commit, rest)
}

/// How many commits of a client there are.
#[tactic(auto, using(crate::proofs::Owned::own_same, crate::proofs::Owned::own_other))]
fn count_own(client: u32, commits: &[Commit]) -> u64
    ensures count { result ≡ length (own client commits.now) }
    ensures few { result ≤ length commits.now }
{
    match commits.split_first() {
        None => 0,
        Some((commit, rest)) => {
            let count = count_own(client, rest);
            if commit.client == client {
                count + 1
            } else {
                count
            }
        }
    }
}

/// Whether a commit has the next number, and the next seq of its client.
fn is_next(before: &[Commit], commit: &Commit) -> bool
    ensures { result ≡ spec.is_next before.now commit.now }
{
    commit.number == before.len() as u64 + 1 && commit.seq == count_own(commit.client, before) + 1
}

/// Whether what is read so may stand behind what is read so.
fn may_stand(before: &Option<CommitList>, commit: &Option<Commit>) -> bool
    ensures { result ≡ spec.may_stand before.now commit.now }
{
    let Some(before) = before else {
        return false;
    };
    match commit {
        None => false,
        Some(commit) => is_next(before.as_slice(), commit),
    }
}

impl Commits {
    pub(crate) fn new(alloc: Global) -> Commits {
        Commits { alloc }
    }
}

impl Follows for Commits {
    ghost use Rattle.journal_file.specs.Commits.{CommitsFollow};

    ghost meaning = { CommitsFollow };

    fn may_follow(
        &self,
        version: Version,
        before: &[Text],
        payload: &[u8],
    ) -> Result<bool, AllocError> {
        let before = read_all(self.alloc, before)?;
        let commit = commit_in(self.alloc, version, payload)?;
        Ok(may_stand(&before, &commit))
    }
}
