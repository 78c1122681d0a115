//! What is known of commits, and what is found of the next one.

ghost use Rattle.std.specs.Prelude.{◌≡◌, ◌+◌, ◌++◌, ◌∷◌, [], length, nat_eq, IfOk, IfSome, OnOk};
ghost use Rattle.txn_lang.specs.Journals.{MayFollow};
ghost use Rattle.txn_lang.specs.States.{Journal};
ghost use Rattle.audit_core.specs.declared.verdict.Verdict.TheVariants.{Legal};
ghost use Rattle.audit_core.specs.Verdicts.{IsInOrder};
ghost use Rattle.audit_core.specs.code.Growing.{HasFound};
ghost use Rattle.audit_core.specs.code.Running.{counted, FindsNext, HasTaken, IsBodyOf, KeepsTaken};

use crate::comparing::difference;
use crate::running::run_of;
use crate::state::State;
use crate::verdict::{Flaw, Verdict};
use std::alloc::{AllocError, Global};
use std::collections::BTreeMap;
use txn_lang::Commit;
use txn_trees::Body;

/// What is known of the commits so far: the state that they leave, and how many each client has.
#[derive(Drop)]
pub(crate) struct Auditor {
    alloc: Global,
    state: State,
    seqs: BTreeMap<u32, u64>,
}

/// Whether a number is the next behind so many.
fn is_behind(number: u64, count: u64) -> bool
    ensures { result ≡ nat_eq number (count + 1) }
{
    number > 0 && number - 1 == count
}

impl Auditor {
    /// No commit yet.
    pub(crate) fn new(alloc: Global) -> Auditor
        ensures { HasTaken [] result }
    {
        Auditor {
            alloc,
            state: State::new(alloc),
            seqs: BTreeMap::new(alloc),
        }
    }

    /// How many commits of a client there are.
    fn seq_of(&self, client: u32) -> u64
        ensures { result ≡ counted self.now.seqs.entries client }
    {
        match self.seqs.get(&client) {
            None => 0,
            Some(seq) => *seq,
        }
    }

    /// What stands against a commit, when its number and seq are right: its body is run anew.
    fn found_by_run(
        &mut self,
        commit: &Commit,
        body: Option<Body>,
    ) -> Result<Option<Flaw>, AllocError>
        requires { IfSome body (IsBodyOf commit.now.body) }
        ensures found { FindsNext (λ before. IsInOrder before commit.now) commit.now self.old result }
        ensures kept { KeepsTaken result self.old self.new }
    {
        match run_of(self.alloc, &commit.body, body, &mut self.state)? {
            None => Ok(Some(Flaw::Body)),
            Some(run) => Ok(difference(commit, &run)),
        }
    }

    /// What stands against a commit behind so many.
    fn found(
        &mut self,
        count: u64,
        commit: &Commit,
        body: Option<Body>,
    ) -> Result<Option<Flaw>, AllocError>
        requires { IfSome body (IsBodyOf commit.now.body) }
        ensures found { FindsNext (λ before. count ≡ length before) commit.now self.old result }
        ensures kept { KeepsTaken result self.old self.new }
    {
        if !is_behind(commit.number, count) {
            return Ok(Some(Flaw::Number));
        }
        if !is_behind(commit.seq, self.seq_of(commit.client)) {
            return Ok(Some(Flaw::Seq));
        }
        self.found_by_run(commit, body)
    }

    /// Takes a commit behind the others.
    fn take(&mut self, commit: &Commit) -> Result<(), AllocError>
        ensures { (before : Journal) → HasTaken before self.old → MayFollow 0 before commit.now
            → OnOk result (HasTaken (before ++ commit.now ∷ []) self.new) }
    {
        self.state.change_all(&commit.deltas)?;
        self.seqs.insert(commit.client, commit.seq)?;
        Ok(())
    }

    /// What is found once a commit stands behind so many, which are legal. More than eight bytes tell are answered as want of memory.
    fn next_behind(
        &mut self,
        count: u64,
        commit: &Commit,
        body: Option<Body>,
    ) -> Result<Verdict, AllocError>
        requires { IfSome body (IsBodyOf commit.now.body) }
        ensures { (before : Journal) → HasFound before (Legal count) self.old
            → IfOk result (λ v. HasFound (before ++ commit.now ∷ []) v self.new) }
    {
        let Some(place) = count.checked_add(1) else {
            return Err(AllocError);
        };
        if let Some(flaw) = self.found(count, commit, body)? {
            return Ok(Verdict::Broken(place, flaw));
        }
        self.take(commit)?;
        Ok(Verdict::Legal(place))
    }

    /// What is found once a commit stands behind others, of which this was found. Its body may be given.
    pub(crate) fn next(
        &mut self,
        so_far: Verdict,
        commit: &Commit,
        body: Option<Body>,
    ) -> Result<Verdict, AllocError>
        requires { IfSome body (IsBodyOf commit.now.body) }
        ensures { (before : Journal) → HasFound before so_far self.old
            → IfOk result (λ v. HasFound (before ++ commit.now ∷ []) v self.new) }
    {
        match so_far {
            Verdict::Legal(count) => self.next_behind(count, commit, body),
            Verdict::Broken(..) => Ok(so_far),
        }
    }
}
