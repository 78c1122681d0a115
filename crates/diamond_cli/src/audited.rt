//! `audit`: the journal in the file of a disk, which is read and never written.

ghost use Rattle.std.specs.Prelude.{◌≡◌, ℕ, if◌then◌else◌, [], Option, None, IfOk, IfErr, IfSome};
ghost use Rattle.dio_core.specs.Counts.{IsCounted};
ghost use Rattle.audit_core.specs.Reports.{report_of};
ghost use Rattle.audit_core.specs.Verdicts.{IsVerdict};
ghost use Rattle.commit_file.specs.Kept.{kept};
ghost use Rattle.commit_file.specs.Recovering as recovering;
ghost use Rattle.journal_file.specs.Commits.{CommitsFollow};
ghost use Rattle.script_runner.specs.Script.{writing};
ghost use Rattle.script_runner.specs.declared.status.TheConstants.{WRITE_FAULT as write_fault};
ghost use Rattle.diamond_cli.specs.Audited as spec;
ghost use Rattle.diamond_cli.specs.Audited.{IsAuditOf, IsRead, IsUnread, Audits};
ghost use Rattle.diamond_cli.specs.Filed.{storing};

use crate::file;
use crate::line::tell;
use audit_core::{Audited, GrowingAudit, Verdict};
use commit_file::RecoverError;
use dio_core::{Disk, Sink};
use journal_file::{CommitTaker, hand_kept};
use script_runner::{WHOLE, WRITE_FAULT};
use std::alloc::{AllocError, Global};
use std::marker::{Brand, Model, PhantomData};
use txn_lang::Commit;
use txn_trees::Body;

/// A commit of the journal isn't what its body does.
pub const BROKEN: u8 = 11;

/// The status, by the verdict and whether it was told.
fn status_of(verdict: Verdict, told: bool) -> u8
    ensures { result ≡ (if told then spec.status_of verdict else write_fault) }
{
    match (told, verdict) {
        (true, Verdict::Legal(_)) => WHOLE,
        (true, Verdict::Broken(..)) => BROKEN,
        (false, _) => WRITE_FAULT,
    }
}

/// Behind how many commits the state is asked for. Contracts see it.
trait Asked {
    ghost at: { Option ℕ };
}

impl Asked for Brand {
    ghost at = { None };
}

/// Audits the commits that it takes, and keeps none.
#[derive(Drop)]
struct Auditing<K: Asked> {
    audit: GrowingAudit,
    of: PhantomData<K>,
}

impl<K: Asked> Model for Auditing<K> {
    ghost use Rattle.std.specs.Prelude.{◌≡◌};
    ghost use Rattle.std.specs.Coded.{coded_list};
    ghost use Rattle.txn_lang.specs.contracts.commit.Commit as commit;
    ghost use Rattle.txn_lang.specs.States.{Journal};

    ghost Value = { Journal };

    ghost coded = { coded_list commit.the_row.coded };

    ghost view = { λ a. a.audit.commits };

    ghost invariant = { λ a. a.audit.at ≡ K.at };
}

impl<K: Asked> Auditing<K> {
    /// An audit of no commit yet.
    fn new(alloc: Global, at: Option<u64>) -> Auditing<K>
        requires { at ≡ K.at }
        ensures { result ≡ [] }
    {
        Auditing {
            audit: GrowingAudit::new(alloc, at),
            of: PhantomData,
        }
    }

    /// What the audit came to.
    fn finish(self) -> Result<Audited, AllocError>
        ensures verdict { IfOk result (λ r. IsVerdict self r.verdict) }
        ensures text { IfOk result (λ r. r.text ≡ report_of self r.verdict K.at) }
    {
        let Auditing { audit, .. } = self;
        audit.finish()
    }
}

impl<K: Asked> CommitTaker for Auditing<K> {
    ghost commits = { λ commits. commits };

    fn take(&mut self, commit: Commit, body: Body) -> Result<(), AllocError> {
        self.audit.take_read(&commit, body)
    }
}

/// Reads a file and audits its commits on the way.
fn audit_read<K: Asked, D: Disk>(
    alloc: Global,
    at: Option<u64>,
    disk: &mut D,
) -> Result<Audited, RecoverError>
    requires { at ≡ K.at }
    ensures read { IfOk result (IsAuditOf at (D.state disk.old)) }
    ensures refused { IfErr result (λ e. IfSome (D.state disk.old)
        (λ s. recovering.IsRefused (kept CommitsFollow s.file) e)) }
    ensures same { D.state disk.new ≡ D.state disk.old }
    ensures past { D.past disk.new ≡ D.past disk.old }
    ensures counted { IsCounted (recovering.disk_failed result)
        (D.disk_faults disk.old) (D.disk_faults disk.new) }
{
    let auditing = hand_kept(alloc, disk, Auditing::<K>::new(alloc, at))?;
    Ok(auditing.finish()?)
}

/// Reads a file, audits its commits and writes what came of it. Where an error comes, nothing was written.
fn audit_kept<W: Sink, D: Disk>(
    alloc: Global,
    at: Option<u64>,
    sink: &mut W,
    disk: &mut D,
) -> Result<u8, RecoverError>
    ensures read { IfOk result (λ status. IsRead at (storing D.Disk disk.old disk.new) status
        (writing W.Sink sink.old sink.new)) }
    ensures unread { IfErr result (IsUnread (storing D.Disk disk.old disk.new)
        (writing W.Sink sink.old sink.new)) }
    ensures past { D.past disk.new ≡ D.past disk.old }
{
    let audited = audit_read::<Brand, D>(alloc, at, disk)?;
    let told = tell(sink, audited.text.as_slice());
    Ok(status_of(audited.verdict, told))
}

/// Audits the journal in the file of a disk, writes to the sink what came of it, and where the journal is legal and it is asked
/// for, the state after so many commits. It answers a status.
///
/// 0: each commit is what its body does. 4: a write or the flush failed. 5: there was no memory. 6: the disk failed. 7: the file
/// is none of a journal. 11: a commit isn't what its body does.
pub(crate) fn audit_file<W: Sink, D: Disk>(
    alloc: Global,
    at: Option<u64>,
    sink: &mut W,
    disk: &mut D,
) -> u8
    ensures audits { Audits at (storing D.Disk disk.old disk.new) result
        (writing W.Sink sink.old sink.new) }
    ensures past { D.past disk.new ≡ D.past disk.old }
{
    match audit_kept(alloc, at, sink, disk) {
        Ok(status) => status,
        Err(error) => file::status_of(error),
    }
}
