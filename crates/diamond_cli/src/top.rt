//! The top call.

ghost use Rattle.std.specs.Prelude.{◌≡◌, ◌⊎◌};
ghost use Rattle.dio_core.specs.Disks.{NothingPending};
ghost use Rattle.script_runner.specs.Script.{reading, writing};
ghost use Rattle.script_runner.specs.declared.status.TheConstants.{NO_MEMORY};
ghost use Rattle.diamond_server.specs.Accounts.{gatherings};
ghost use Rattle.remote_command.specs.Running.{ends};
ghost use Rattle.diamond_cli.specs.Words.{AsksRun, AsksServe, AsksServeFile, AsksAudit};
ghost use Rattle.diamond_cli.specs.Words.{AsksRemote, AsksLoad, AsksNothing, words_refusal};
ghost use Rattle.diamond_cli.specs.Filed.{storing};
ghost use Rattle.diamond_cli.specs.Commands.{RunsScript, Serves, Files, AuditsFile, Remotes};
ghost use Rattle.diamond_cli.specs.Commands.{LoadsScript};

use crate::audited::audit_file;
use crate::file::serve_file;
use crate::remote::remote;
use crate::run::run;
use crate::serve::serve;
use crate::service::Asked;
use cli_words::{Plan, WordsError, read_words};
use dio_core::{Disk, Listener, Sink, Source};
use load_runner::run_load;
use script_runner::NO_MEMORY;
use std::alloc::Global;
use std::sync::Wait;
use std::thread::Threads;

/// The status where the words ask for nothing that the program does.
pub const BAD_WORDS: u8 = 1;

/// The status where no command was read from the words.
fn words_status(error: WordsError<'_>) -> u8
    ensures { result ≡ words_refusal error.entry }
{
    match error {
        WordsError::BadWords(_) => BAD_WORDS,
        WordsError::NoMemory => NO_MEMORY,
    }
}

/// Runs a command, and answers its status. The words don't include the program's name. What starts threads and waits
/// comes first; `run` doesn't wait for others, and starts threads where many watches are run anew.
///
/// `run` reads a script from the source, and writes the replies to each line before it reads the next one. It uses
/// neither disk nor listener. The statuses are 0 where the input was read to its end, 1 where the words ask for nothing,
/// 3 where a read failed, 4 where a write or the flush at the end failed, 5 for want of memory, and 9 where there is
/// a line behind the last one that may be read.
///
/// `serve` serves the listener's links over one store, each in a thread of its own, and writes what came of them to the sink. A link
/// brings the lines of a session, or with the form `wire` the requests of a client that runs its session itself. The address is the listener's affair. It doesn't use the source. Without a file the store is in memory,
/// and the disk isn't used. With one the store begins with the commits that the disk's file is kept as, and keeps all others
/// there; the path is the disk's affair. The statuses are 0 where all sessions ended and the line was written, 4 where that
/// failed, 5 for want of memory, 6 where the disk failed while its file was recovered, 7 where that is none of a journal,
/// and 8 where an accept failed.
///
/// `audit` reads the disk's file, checks that each of its commits is what its body does on the state that the commits before it
/// leave, and writes to the sink what came of it. It writes nothing to the disk, and uses neither source nor listener; the path is
/// the disk's affair. The statuses are 0 where the journal is legal, 4 where a write or the flush failed, 5 for want of memory, 6
/// where the disk failed, 7 where its file is none of a journal, and 11 where a commit isn't what its body does.
///
/// `remote` takes the listener's link, reads the lines of a session from the source, has the calls that they make answered over the
/// link, and writes the replies to the sink. The address is the listener's affair. It doesn't use the disk. The statuses are 0 where the
/// input was read to its end or to a `quit`, 3, 4, 5 and 9 as of `run`, 6 where the link failed, 8 where the accept failed, 10 where
/// what the link gave is no answer, and 12 where no link is left.
///
/// `load` runs the script that a number makes in memory, and writes to the sink one line of what came of it. It uses neither source,
/// disk nor listener. The statuses are 0 where the line was written, 4 where a write or the flush failed, and 5 for want of memory.
pub fn diamond<R: Threads + Wait + Sync, S: Source, W: Sink, D: Disk + Send, N: Listener>(
    rt: &R,
    alloc: Global,
    words: &[&str],
    source: &mut S,
    sink: &mut W,
    disk: &mut D,
    listener: &mut N,
) -> u8
    // When the program begins, a crash leaves the disk's file as it reads.
    requires pending { NothingPending (D.state disk.old) }

    // 1 comes where the words ask for nothing, memory aside, and only there; and there all is as before.
    ensures form { result ≡ BAD_WORDS → AsksNothing words.now }
    ensures other { AsksNothing words.now → (result ≡ BAD_WORDS) ⊎ (result ≡ NO_MEMORY) }
    ensures unread { AsksNothing words.now → (source.new ≡ source.old)
        × (listener.new ≡ listener.old) }
    ensures unwritten { AsksNothing words.now → (sink.new ≡ sink.old) × (disk.new ≡ disk.old) }

    // `run` keeps what a run of a script promises, and doesn't use the disk or the listener.
    ensures run { AsksRun words.now → RunsScript words.now result
        (reading S.Source source.old source.new) (writing W.Sink sink.old sink.new) }
    ensures unused_by_run { AsksRun words.now → (disk.new ≡ disk.old)
        × (listener.new ≡ listener.old) }

    // `serve` keeps what it promises of its sessions. It doesn't use the source, nor, without a file, the disk.
    ensures serve { AsksServe words.now → Serves words.now N.Link.Source N.Link.Sink N.Link.ended
        (gatherings N.Listener listener.old listener.new) result
        (writing W.Sink sink.old sink.new) }
    ensures unused_by_serve { AsksServe words.now → (source.new ≡ source.old)
        × (disk.new ≡ disk.old) }
    ensures files { AsksServeFile words.now → Files words.now N.Link.Source N.Link.Sink N.Link.ended
        (gatherings N.Listener listener.old listener.new) (storing D.Disk disk.old disk.new)
        result (writing W.Sink sink.old sink.new) }
    ensures unused_by_files { AsksServeFile words.now → source.new ≡ source.old }

    // `audit` keeps what it promises of the journal in the disk's file. It doesn't use the source or the listener, and no call of
    // it changes the disk.
    ensures audit { AsksAudit words.now → AuditsFile words.now
        (storing D.Disk disk.old disk.new) result (writing W.Sink sink.old sink.new) }
    ensures unused_by_audit { AsksAudit words.now → (source.new ≡ source.old)
        × (listener.new ≡ listener.old) }
    ensures spared_by_audit { AsksAudit words.now → (D.state disk.new ≡ D.state disk.old)
        × (D.past disk.new ≡ D.past disk.old) }

    // `remote` keeps what it promises of its session, and doesn't use the disk.
    ensures remote { AsksRemote words.now → Remotes words.now N.Link.Source N.Link.Sink
        (gatherings N.Listener listener.old listener.new) result
        (ends S.Source W.Sink source.old sink.old) (ends S.Source W.Sink source.new sink.new) }
    ensures unused_by_remote { AsksRemote words.now → disk.new ≡ disk.old }

    // `load` keeps what it promises of its line, and uses nothing but the sink.
    ensures load { AsksLoad words.now → LoadsScript words.now result
        (writing W.Sink sink.old sink.new) }
    ensures unused_by_load { AsksLoad words.now → (source.new ≡ source.old) × (disk.new ≡ disk.old)
        × (listener.new ≡ listener.old) }
{
    match read_words(alloc, words) {
        Ok(Plan::Run(settings)) => run(rt, alloc, &settings, source, sink),
        Ok(
            Plan::Serve {
                settings,
                sessions,
                file,
                wire,
                ..
            },
        ) => {
            let asked = Asked {
                rt,
                settings,
                sessions,
                wire,
            };
            match file {
                None => serve(alloc, &asked, sink, listener),
                Some(_) => serve_file(alloc, &asked, sink, disk, listener),
            }
        }
        Ok(Plan::Audit { at, .. }) => audit_file(alloc, at, sink, disk),
        Ok(Plan::Remote { .. }) => remote(alloc, source, sink, listener),
        Ok(
            Plan::Load {
                settings,
                seed,
                count,
            },
        ) => run_load(alloc, &settings, seed, count, sink),
        Err(error) => words_status(error),
    }
}
