//! The commits of payloads, taken one behind another.

ghost use Rattle.std.specs.Prelude.{◌≡◌, ◌<◌, ◌++◌, ◌∷◌, [], ℕ, All, length, map, if◌then◌else◌, IfOk, OnErr, Some, Ok, Err};
ghost use Rattle.std.specs.List.{AllByRecursion};
ghost use Rattle.std.specs.List.Sorted.{IsStrictlySortedBy};
ghost use Rattle.std.specs.Map.{keys_of};
ghost use Rattle.rdt_types.specs.Addresses.{address_cmp};
ghost use Rattle.commit_file.specs.declared.version.Version.TheVariants.{Two as version_two};
ghost use Rattle.txn_lang.specs.States.{Journal};
ghost use Rattle.txn_lang.specs.Journals.{IsLegal};
ghost use Rattle.txn_lang.specs.Tree.{tree};
ghost use Rattle.journal_core.specs.declared.limits.TheConstants.{FIRST_UNTOLD_CLIENT};
ghost use Rattle.journal_core.specs.Kinds.{HasKinds};
ghost use Rattle.journal_core.specs.Pairs.{AreNumbered};
ghost use Rattle.record_code.specs.declared.decode_error.DecodeError.TheVariants.{BadRecord};
ghost use Rattle.record_code.specs.Payloads.{payload, decoded, IsRecorded};
ghost use Rattle.journal_file.specs.Chains.{AreCounted, Follows};
ghost use Rattle.journal_file.specs.Commits.{commits_of, is_next};
ghost use Rattle.journal_file.specs.code.Faults as code;

use crate::counts::Counts;
use crate::taker::CommitTaker;
use commit_file::{Chain, Version};
use record_code::{DecodeError, decode_with_body};
use std::alloc::{AllocError, Global};
use std::marker::Model;
use txn_lang::Commit;
use txn_trees::Body;

/// Hands commits on to a taker, each where it may stand behind those before it.
#[derive(Drop)]
pub(crate) struct CommitChain<T: CommitTaker> {
    alloc: Global,
    taker: T,
    /// How many there are, unless memory was wanting.
    counts: Option<Counts>,
}

impl<T: CommitTaker> Model for CommitChain<T> {
    ghost use Rattle.std.specs.Coded.{coded_list};
    ghost use Rattle.txn_lang.specs.contracts.commit.Commit as commit;
    ghost use Rattle.txn_lang.specs.States.{Journal};
    ghost use Rattle.journal_file.specs.Chains.{IsChain};

    ghost Value = { Journal };

    ghost coded = { coded_list commit.the_row.coded };

    ghost view = { λ chain. T.commits chain.taker };

    ghost invariant = { λ chain. IsChain chain.counts (T.commits chain.taker) };
}

/// What a payload is that isn't decoded. One that is none is never told as want of memory.
fn not_decoded(error: DecodeError) -> Result<bool, AllocError>
    ensures { result ≡ code.not_decoded error }
{
    match error {
        DecodeError::BadRecord(_place) => Ok(false),
        DecodeError::NoMemory => Err(AllocError),
    }
}

/// Takes a commit behind those that are counted, if it is the next, with the body that its text is. One that isn't is never told as
/// want of memory.
fn follow<T: CommitTaker>(
    counts: &mut Counts,
    taker: &mut T,
    commit: Commit,
    body: Body,
) -> Result<bool, AllocError>
    requires { tree commit.body ≡ Some body }
    ensures follows { (before : Journal) → AreCounted before counts.old
        → Follows before commit result counts.new }
    ensures takes { IfOk result (λ took. T.commits taker.new
        ≡ (if took then T.commits taker.old ++ commit ∷ [] else T.commits taker.old)) }
    ensures same { OnErr result (T.commits taker.new ≡ T.commits taker.old) }
{
    if !counts.is_next(&commit) {
        return Ok(false);
    }
    counts.add(&commit)?;
    taker.take(commit, body)?;
    Ok(true)
}

impl<T: CommitTaker> CommitChain<T> {
    /// No commit.
    pub(crate) fn new(alloc: Global, taker: T) -> CommitChain<T>
        requires { T.commits taker ≡ [] }
        ensures { result ≡ [] }
    {
        CommitChain {
            alloc,
            taker,
            counts: Some(Counts::new(alloc)),
        }
    }

    /// Who took the commits, and what is known of them.
    pub(crate) fn into_taker(self) -> T
        ensures commits { T.commits result ≡ self }
        ensures read { commits_of (map payload (T.commits result)) ≡ Some (T.commits result) }
        ensures legal { IsLegal (length (T.commits result)) (T.commits result) }
        ensures numbered { AreNumbered (T.commits result) }
        ensures kinds { HasKinds (T.commits result) }
        ensures rising { AllByRecursion (λ commit. IsStrictlySortedBy address_cmp (keys_of commit.deltas)) (T.commits result) }
        ensures clients { All (λ commit. commit.client < FIRST_UNTOLD_CLIENT) (T.commits result) }
    {
        let CommitChain { taker, .. } = self;
        taker
    }

    /// Takes a commit behind the others, if it may stand there, with the body that its text is. Once memory was wanting, none is taken
    /// any more.
    fn take_commit(&mut self, commit: Commit, body: Body) -> Result<bool, AllocError>
        requires recorded { IsRecorded version_two commit }
        requires tree { tree commit.body ≡ Some body }
        ensures follows { IfOk result (λ took. took ≡ is_next self.old commit) }
        ensures takes { IfOk result (λ took. self.new ≡ (if took then self.old ++ commit ∷ [] else self.old)) }
    {
        let Some(mut counts) = self.counts.take() else {
            return Err(AllocError);
        };
        let took = follow(&mut counts, &mut self.taker, commit, body)?;
        self.counts = Some(counts);
        Ok(took)
    }

    /// Says that the payloads of the commits are read as them. It does nothing.
    fn is_read(&self)
        ensures { commits_of (map payload self.now) ≡ Some self.now }
    {
        let _alloc = &self.alloc;
    }
}

impl<T: CommitTaker> Chain for CommitChain<T> {
    ghost use Rattle.std.specs.Prelude.{map};
    ghost use Rattle.record_code.specs.Payloads.{payload};
    ghost use Rattle.journal_file.specs.Commits.{CommitsFollow};

    ghost follows = { CommitsFollow };

    ghost payloads = { λ commits. map payload commits };

    fn take(&mut self, version: Version, bytes: &[u8]) -> Result<bool, AllocError> {
        self.is_read();
        match decode_with_body(self.alloc, version, bytes) {
            Ok((commit, body)) => self.take_commit(commit, body),
            Err(error) => not_decoded(error),
        }
    }
}
