//! An audit to which one commit is handed after another.

ghost use Rattle.std.specs.Prelude.{◌≡◌, [], ◌∷◌, ◌++◌, Some, IfOk, IfSome, OnOk, OnErr};
ghost use Rattle.txn_lang.specs.States.{Journal};
ghost use Rattle.txn_lang.specs.Tree.{tree};
ghost use Rattle.audit_core.specs.Growing.{with_commit};
ghost use Rattle.audit_core.specs.Reports.{report_of};
ghost use Rattle.audit_core.specs.Verdicts.{IsVerdict};
ghost use Rattle.audit_core.specs.code.Growing as spec;
ghost use Rattle.audit_core.specs.code.Growing.{HasGrown};
ghost use Rattle.audit_core.specs.code.Running.{IsBodyOf};

use crate::auditing::Auditor;
use crate::reporting::told;
use crate::state::State;
use crate::taken::Taken;
use crate::verdict::Verdict;
use plain_data::Text;
use std::alloc::{AllocError, Global};
use std::marker::Model;
use txn_lang::{Commit, CommitList};
use txn_trees::Body;

/// What is kept of the commits so far: what the next one is looked at behind, and the state that is asked for.
#[derive(Drop)]
struct Kept {
    auditor: Auditor,
    /// The state that is asked for, as far as commits were taken.
    asked: State,
}

/// An audit of commits that are handed to it one after another: each is looked at behind those before it, its number and its seq
/// first, and then its body is run anew on the state that they leave. Nothing of it is taken on trust.
///
/// No commit is kept. The state is kept by address and changed in place, and so is that behind so many commits, where it is asked
/// for. So the memory that it takes is that of these two, and that of one run.
#[derive(Drop)]
pub struct GrowingAudit {
    alloc: Global,
    kept: Kept,
    /// What was found so far, unless memory was wanting.
    so_far: Option<Verdict>,
    at: Option<u64>,
    taken: Taken,
}

impl Model for GrowingAudit {
    ghost use Rattle.std.specs.Prelude.{IfSome};
    ghost use Rattle.audit_core.specs.Growing.{Growing, growing_code};
    ghost use Rattle.audit_core.specs.code.Growing.{HasGrown};

    ghost Value = { Growing };

    ghost coded = { growing_code };

    ghost view = { λ a. record { at = a.at; commits = a.taken.commits } };

    ghost invariant = { λ a.
        IfSome a.so_far (λ v. HasGrown a.at a.taken.commits v a.kept.auditor a.kept.asked) };
}

/// What an audit came to, and its report.
#[derive(Debug, Drop)]
pub struct Audited {
    pub verdict: Verdict,
    pub text: Text,
}

/// Whether the state behind one commit more is asked for, or behind a later one.
fn is_asked(at: Option<u64>, so_far: Verdict) -> bool
    ensures { result ≡ spec.is_asked at so_far }
{
    match at {
        None => false,
        Some(n) => match so_far {
            Verdict::Legal(count) => count < n,
            Verdict::Broken(..) => false,
        },
    }
}

/// Goes on with the state that is asked for.
fn ask(
    asked: &mut State,
    at: Option<u64>,
    so_far: Verdict,
    commit: &Commit,
) -> Result<(), AllocError>
    ensures { OnOk result (asked.new ≡ spec.asked_after at so_far asked.old commit.now.deltas) }
{
    if is_asked(at, so_far) {
        asked.change_all(&commit.deltas)?;
    }
    Ok(())
}

/// What is found once a commit stands behind others, of which this was found.
fn grow(
    kept: &mut Kept,
    at: Option<u64>,
    so_far: Verdict,
    commit: &Commit,
    body: Option<Body>,
) -> Result<Verdict, AllocError>
    requires { IfSome body (IsBodyOf commit.now.body) }
    ensures { (before : Journal) → HasGrown at before so_far kept.old.auditor kept.old.asked
        → IfOk result (λ v.
        HasGrown at (before ++ commit.now ∷ []) v kept.new.auditor kept.new.asked) }
{
    ask(&mut kept.asked, at, so_far, commit)?;
    kept.auditor.next(so_far, commit, body)
}

impl GrowingAudit {
    /// An audit of no commit yet. The state behind so many commits may be asked for.
    pub fn new(alloc: Global, at: Option<u64>) -> GrowingAudit
        ensures { result ≡ record { at = at; commits = [] } }
    {
        GrowingAudit {
            alloc,
            kept: Kept {
                auditor: Auditor::new(alloc),
                asked: State::new(alloc),
            },
            so_far: Some(Verdict::Legal(0)),
            at,
            taken: Taken::none(),
        }
    }

    /// Takes a commit behind the others, whose body may be given.
    fn take_with(&mut self, commit: &Commit, body: Option<Body>) -> Result<(), AllocError>
        requires { IfSome body (IsBodyOf commit.now.body) }
        ensures took { OnOk result (self.new ≡ with_commit self.old commit.now) }
        ensures same { OnErr result (self.new ≡ self.old) }
    {
        let Some(so_far) = self.so_far.take() else {
            return Err(AllocError);
        };
        let found = grow(&mut self.kept, self.at, so_far, commit, body)?;
        self.taken = self.taken.and(commit);
        self.so_far = Some(found);
        Ok(())
    }

    /// Takes a commit behind the others. A body whose text is longer than four bytes tell, and a commit behind more than eight bytes
    /// tell, are answered as want of memory. Once memory was wanting, none is taken any more.
    pub fn take(&mut self, commit: &Commit) -> Result<(), AllocError>
        ensures took { OnOk result (self.new ≡ with_commit self.old commit.now) }
        ensures same { OnErr result (self.new ≡ self.old) }
    {
        self.take_with(commit, None)
    }

    /// Takes a commit behind the others, as `take` does, with the body that its text is: so the text isn't read once more.
    pub fn take_read(&mut self, commit: &Commit, body: Body) -> Result<(), AllocError>
        requires { tree commit.now.body ≡ Some body }
        ensures took { OnOk result (self.new ≡ with_commit self.old commit.now) }
        ensures same { OnErr result (self.new ≡ self.old) }
    {
        self.take_with(commit, Some(body))
    }

    /// What the audit says of the commits that it has taken.
    pub fn verdict(&self) -> Result<Verdict, AllocError>
        ensures { IfOk result (IsVerdict self.now.commits) }
    {
        match self.so_far {
            Some(verdict) => Ok(verdict),
            None => Err(AllocError),
        }
    }

    /// What the audit says of the commits that it has taken, and the report of it.
    pub fn finish(self) -> Result<Audited, AllocError>
        ensures verdict { IfOk result (λ r. IsVerdict self.commits r.verdict) }
        ensures text { IfOk result (λ r. r.text ≡ report_of self.commits r.verdict self.at) }
    {
        let GrowingAudit {
            alloc,
            kept,
            so_far,
            at,
            ..
        } = self;
        let Some(verdict) = so_far else {
            return Err(AllocError);
        };
        let Kept { asked, .. } = kept;
        let text = told(alloc, verdict, at, asked)?;
        Ok(Audited { verdict, text })
    }
}

/// Audits the commits of a list.
pub fn audit(alloc: Global, commits: &CommitList) -> Result<Verdict, AllocError>
    ensures { IfOk result (IsVerdict commits.now) }
{
    let mut audit = GrowingAudit::new(alloc, None);
    for commit in commits.as_slice() {
        audit.take(commit)?;
    }
    audit.verdict()
}
