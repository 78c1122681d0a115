//! `serve` over a store whose commits are kept in the file of a disk.

ghost use Rattle.std.specs.Prelude.{◌≡◌, ◌+◌, ◌<◌, ◌^◌, length, IfOk, IfErr, OnOk, IfSome};
ghost use Rattle.dio_core.specs.Disks.{NothingPending};
ghost use Rattle.plain_data.specs.Histories.{IsLawful};
ghost use Rattle.script_runner.specs.Script.{writing};
ghost use Rattle.journal_file.specs.Keepers.{Holds};
ghost use Rattle.diamond_store.specs.Following.{Follows};
ghost use Rattle.diamond_store.specs.Opening.{AreClients};
ghost use Rattle.diamond_server.specs.Promises.{sides};
ghost use Rattle.diamond_server.specs.Accounts.{gatherings, AreEnded};
ghost use Rattle.diamond_cli.specs.Serving.{promised_of, HasServed, EndsLinks};
ghost use Rattle.diamond_cli.specs.Filed.{storing, refusal, HoldsJournal, IsFiled, IsRefused};
ghost use Rattle.diamond_cli.specs.Filed.{ServesFile};

use crate::line::say;
use crate::service::{Asked, Service};
use crate::sessions::{Served, serve_kept};
use commit_file::RecoverError;
use diamond_server::{Serves, SessionLines, Tally};
use dio_core::{Disk, Listener, Sink};
use journal_file::{CommitKeeper, Recovered, recover};
use par_rerun::{NoMeet, Parallel};
use script_runner::NO_MEMORY;
use std::alloc::{AllocError, Global};
use std::sync::Wait;
use std::thread::Threads;
use txn_lang::CommitList;
use wire_server::Requests;

/// The disk failed while its file was recovered.
pub const DISK_FAULT: u8 = 6;

/// The file is none of a journal.
pub const NOT_JOURNAL: u8 = 7;

/// What came of the links, and the store's commits.
#[derive(Drop)]
struct Filed {
    tally: Tally,
    commits: CommitList,
}

/// Serves over a file that was recovered, and gives its disk back.
fn serve_recovered<D: Disk + Send, Li: Listener, V: Serves + Sync, R: Threads + Wait + Sync>(
    alloc: Global,
    recovered: Recovered,
    disk: &mut D,
    listener: &mut Li,
    service: &Service<'_, V, R>,
) -> Result<Filed, AllocError>
    requires lawful { IsLawful Follows (length recovered.commits) recovered.commits }
    requires clients { AreClients recovered.commits }
    requires holds { IfSome (D.state disk.old) (Holds recovered.commits recovered.end) }
    requires room { recovered.end + 1 < 2 ^ 64 }
    ensures served { IfOk result (λ filed. HasServed V.promised (sides Li.Link.Source Li.Link.Sink)
        service.now.settings service.now.sessions (gatherings Li.Listener listener.old listener.new)
        recovered.commits (D.disk_faults disk.old) (D.disk_faults disk.new)
        filed.tally filed.commits) }
    ensures holds { IfOk result (λ filed. HoldsJournal filed.commits
        (D.disk_faults disk.old) (D.disk_faults disk.new) (D.state disk.new)) }
    ensures ends { OnOk result (AreEnded Li.Link.ended
        (Li.given_back listener.old) (Li.given_back listener.new)) }
{
    let _count = disk.disk_faults();
    let Recovered { commits, end } = recovered;
    let keeper = CommitKeeper::new(disk, end);
    let served = serve_kept(alloc, keeper, commits, listener, service)?;
    let Served {
        tally,
        mut keeper,
        commits,
    } = served;
    // Where this fails, a commit that was denied stays doubtful.
    let _mended = keeper.mend();
    let _disk = keeper.release();
    Ok(Filed { tally, commits })
}

/// Recovers the file, serves, and answers the status. Where an error comes, nothing was written.
fn serve_links<W: Sink, D: Disk + Send, Li: Listener, V: Serves + Sync, R: Threads + Wait + Sync>(
    alloc: Global,
    sink: &mut W,
    disk: &mut D,
    listener: &mut Li,
    service: &Service<'_, V, R>,
) -> Result<u8, RecoverError>
    requires pending { NothingPending (D.state disk.old) }
    ensures filed { IfOk result (λ status. IsFiled V.promised (sides Li.Link.Source Li.Link.Sink)
        service.now.settings service.now.sessions (gatherings Li.Listener listener.old listener.new)
        (storing D.Disk disk.old disk.new) status (writing W.Sink sink.old sink.new)) }
    ensures ends { OnOk result (AreEnded Li.Link.ended
        (Li.given_back listener.old) (Li.given_back listener.new)) }
    ensures refused { IfErr result (IsRefused (gatherings Li.Listener listener.old listener.new)
        (storing D.Disk disk.old disk.new) (writing W.Sink sink.old sink.new)) }
{
    let recovered = recover(alloc, disk)?;
    let filed = serve_recovered(alloc, recovered, disk, listener, service)?;
    Ok(say(alloc, filed.tally, &filed.commits, sink)?)
}

/// The status by which it is said that a file was not recovered.
pub(crate) fn status_of(error: RecoverError) -> u8
    ensures { result ≡ refusal error }
{
    match error {
        RecoverError::NotJournal(_) => NOT_JOURNAL,
        RecoverError::DiskFault => DISK_FAULT,
        RecoverError::NoMemory => NO_MEMORY,
    }
}

/// Serves links in this way over the file of a disk, and answers the status.
fn serve_way<W: Sink, D: Disk + Send, Li: Listener, V: Serves + Sync, R: Threads + Wait + Sync>(
    alloc: Global,
    sink: &mut W,
    disk: &mut D,
    listener: &mut Li,
    service: &Service<'_, V, R>,
) -> u8
    requires pending { NothingPending (D.state disk.old) }
    ensures serves { ServesFile V.promised (sides Li.Link.Source Li.Link.Sink)
        service.now.settings service.now.sessions (gatherings Li.Listener listener.old listener.new)
        (storing D.Disk disk.old disk.new) result (writing W.Sink sink.old sink.new) }
    ensures ends { EndsLinks Li.Link.ended
        (gatherings Li.Listener listener.old listener.new) result }
{
    match serve_links(alloc, sink, disk, listener, service) {
        Ok(status) => status,
        Err(error) => status_of(error),
    }
}

/// Recovers the file of a disk, and serves at most so many links over one store, each in a thread of its own. Each brings the lines of a
/// session, or requests of the wire. The store begins with the file's commits, and keeps all others there. What came of the links is
/// written to the sink. It answers a status.
///
/// 0: all sessions have ended, and the line was written and passed on. 4: a write or the flush failed. 5: there was no memory.
/// 6: the disk failed while the file was recovered. 7: the file is none of a journal. 8: an accept failed; the running sessions
/// ended first, and the line was tried.
pub(crate) fn serve_file<W: Sink, D: Disk + Send, Li: Listener, R: Threads + Wait + Sync>(
    alloc: Global,
    asked: &Asked<'_, R>,
    sink: &mut W,
    disk: &mut D,
    listener: &mut Li,
) -> u8
    requires pending { NothingPending (D.state disk.old) }
    ensures serves { ServesFile (promised_of asked.now.wire) (sides Li.Link.Source Li.Link.Sink)
        asked.now.settings asked.now.sessions (gatherings Li.Listener listener.old listener.new)
        (storing D.Disk disk.old disk.new) result (writing W.Sink sink.old sink.new) }
    ensures ends { EndsLinks Li.Link.ended
        (gatherings Li.Listener listener.old listener.new) result }
{
    if asked.wire {
        let requests = Service {
            rt: asked.rt,
            settings: asked.settings,
            sessions: asked.sessions,
            relayed: true,
            way: &Requests,
        };
        serve_way(alloc, sink, disk, listener, &requests)
    } else {
        let reruns = Parallel::new(asked.rt, NoMeet);
        let lines = Service {
            rt: asked.rt,
            settings: asked.settings,
            sessions: asked.sessions,
            relayed: true,
            way: &SessionLines { reruns: &reruns },
        };
        serve_way(alloc, sink, disk, listener, &lines)
    }
}
