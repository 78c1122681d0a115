//! A script: its lines are read, done and answered, one after another.

ghost use Rattle.std.specs.Prelude.{◌≡◌, ◌⊎◌, not, true, false, length, Ok, Err, IfOk, IfErr, IfSome, OnOk};
ghost use Rattle.std.specs.Bool.{OnTrue};
ghost use Rattle.dio_core.specs.Counts.{IsCounted};
ghost use Rattle.dio_core.specs.Lines.{TakesLine, IsShort};
ghost use Rattle.dio_core.specs.Sinks.{IsPassedOn};
ghost use Rattle.dio_core.specs.Sources.{IsAhead};
ghost use Rattle.plain_data.specs.declared.or_no_memory.OrNoMemory.TheVariants as stop;
ghost use Rattle.script_runner.specs.Worlds.{world_of, Stands};
ghost use Rattle.script_runner.specs.Script.{reading, writing, TriesFlush, KeepsPromises, HasCommits};
ghost use Rattle.script_runner.specs.code.Turns.{moment, CountsReads, CountsWrites, StopsReading, Turns, Ran, StopsBetween, Closes};

use crate::lines::answer;
use crate::status::{NO_MEMORY, READ_FAULT, TOO_MANY_LINES, WHOLE, WRITE_FAULT};
use crate::stop::{Cause, MOST_LINES, Stop};
use crate::world::{Script, commits_in};
use client_watches::Means;
use dio_core::{Line, LineFault, NEWLINE, Sink, Source, next_line, write_all};
use plain_data::{OrNoMemory, Text};
use rdt_types::Settings;
use std::alloc::Global;
use std::mem::ManuallyDrop;
use watch_reruns::{One, Rerunner};

/// The next line of the source.
fn read_line<S: Source>(alloc: Global, source: &mut S) -> Result<Line, Stop>
    ensures line { IfOk result (λ line. TakesLine line (S.left source.old) (S.left source.new)) }
    ensures short { IfOk result IsShort }
    ensures stops { IfErr result
        (λ stop. StopsReading stop (S.left source.old) (S.left source.new)) }
    ensures reads { CountsReads result (S.read_faults source.old) (S.read_faults source.new) }
{
    match next_line(alloc, source) {
        Ok(line) => Ok(line),
        Err(LineFault::ReadFault) => Err(OrNoMemory::Cause(Cause::ReadFault)),
        Err(LineFault::NoMemory) => Err(OrNoMemory::NoMemory),
    }
}

/// Passes on what was written, unless the next line is ahead already: until that is answered nobody waits. `false` is a
/// fault of the sink.
fn pass_on<S: Source, W: Sink>(source: &S, sink: &mut W) -> bool
    ensures passed { OnTrue result
        (IsAhead NEWLINE (S.left source.now) ⊎ IsPassedOn (W.taken sink.new) (W.passed sink.new)) }
    ensures taken { W.taken sink.new ≡ W.taken sink.old }
    ensures writes { IsCounted (not result) (W.write_faults sink.old) (W.write_faults sink.new) }
{
    source.sees(NEWLINE) || sink.flush()
}

/// Reads, does and answers one line. `false` says that there was none. The reply is made in memory that all lines share.
fn turn<S: Source, W: Sink, R: Rerunner>(
    means: &Means<'_, R>,
    script: &mut Script,
    reply: &mut Text,
    source: &mut S,
    sink: &mut W,
) -> Result<bool, Stop>
    requires { Stands (world_of script.old) }
    ensures turns { Turns result
        (moment (world_of script.old) (S.left source.old) (W.taken sink.old))
        (moment (world_of script.new) (S.left source.new) (W.taken sink.new)) }
    ensures stands { OnOk result (Stands (world_of script.new)) }
    ensures passed { result ≡ Ok true →
        IsAhead NEWLINE (S.left source.new) ⊎ IsPassedOn (W.taken sink.new) (W.passed sink.new) }
    ensures idle { result ≡ Ok false → world_of script.new ≡ world_of script.old }
    ensures wanting { result ≡ Err stop.NoMemory → sink.new ≡ sink.old }
    ensures reads { CountsReads result (S.read_faults source.old) (S.read_faults source.new) }
    ensures writes { CountsWrites result (W.write_faults sink.old) (W.write_faults sink.new) }
{
    let line = match read_line(means.alloc, source)? {
        Line::End => return Ok(false),
        line => line,
    };
    reply.truncate(0);
    answer(means, script, &line, reply)?;
    if write_all(sink, reply.as_slice()) && pass_on(source, sink) {
        Ok(true)
    } else {
        Err(OrNoMemory::Cause(Cause::WriteFault))
    }
}

/// Reads, does and answers the lines of the source to its end. It answers how many commits there are then.
fn run_lines<S: Source, W: Sink, R: Rerunner>(
    means: &Means<'_, R>,
    settings: &Settings,
    source: &mut S,
    sink: &mut W,
) -> Result<Option<u64>, Stop>
    ensures ran { Ran settings.now result (S.left source.old) (W.taken sink.old)
        (S.left source.new) (W.taken sink.new) }
    ensures between { StopsBetween settings.now result (S.left source.old)
        (writing W.Sink sink.old sink.new) }
    ensures commits { IfOk result
        (λ number. IfSome (S.left source.old) (HasCommits settings.now number)) }
    ensures reads { CountsReads result (S.read_faults source.old) (S.read_faults source.new) }
    ensures writes { CountsWrites result (W.write_faults sink.old) (W.write_faults sink.new) }
{
    let mut script = Script::new(means.alloc, settings)?;
    let mut reply = Text::new(means.alloc);
    for _ in 0..MOST_LINES {
        if !turn(means, &mut script, &mut reply, source, sink)? {
            return Ok(commits_of(script));
        }
    }
    match read_line(means.alloc, source)? {
        Line::End => Ok(commits_of(script)),
        _ => Err(OrNoMemory::Cause(Cause::TooManyLines)),
    }
}

/// How many commits a script has made, unless memory is wanting for the answer. What it has is left to the end of the process, which
/// comes with the end of the run: to take its store apart, value by value, would cost a tenth of the run.
fn commits_of(mut script: Script) -> Option<u64>
    ensures { IfSome result (λ n. n ≡ length (world_of script).store.journal) }
{
    let commits = commits_in(&mut script.world);
    let _left = ManuallyDrop::new(script);
    commits
}

/// Runs a script: each line is read, done and answered before the next one is read. It answers a status. The sink is flushed
/// behind an answer where the source doesn't see a whole line ahead, so that who waits for it gets it.
///
/// 0: the input was read to its end. 3: a read failed. 4: a write or a flush failed. 5: there was no memory. 9: there is
/// a line behind the last one that may be read. At 3 and 9 too the sink is flushed at the end, whatever that answers.
pub fn run_script<S: Source, W: Sink>(
    alloc: Global,
    settings: &Settings,
    source: &mut S,
    sink: &mut W,
) -> u8
    ensures { KeepsPromises settings.now result (reading S.Source source.old source.new)
        (writing W.Sink sink.old sink.new) }
{
    run_script_by(alloc, settings, source, sink, &One)
}

/// The same, where reruns of watches are made by others.
pub fn run_script_by<S: Source, W: Sink, R: Rerunner>(
    alloc: Global,
    settings: &Settings,
    source: &mut S,
    sink: &mut W,
    reruns: &R,
) -> u8
    ensures { KeepsPromises settings.now result (reading S.Source source.old source.new)
        (writing W.Sink sink.old sink.new) }
{
    run_counted(alloc, settings, source, sink, reruns).0
}

/// The same. Where the input was read to its end, it answers besides how many commits the script made, unless memory is wanting
/// for that.
pub fn run_counted<S: Source, W: Sink, R: Rerunner>(
    alloc: Global,
    settings: &Settings,
    source: &mut S,
    sink: &mut W,
    reruns: &R,
) -> (u8, Option<u64>)
    ensures keeps { KeepsPromises settings.now result.0 (reading S.Source source.old source.new)
        (writing W.Sink sink.old sink.new) }
    ensures commits { IfSome (S.left source.old) (HasCommits settings.now result.1) }
{
    let ended = run_lines(&Means { alloc, reruns }, settings, source, sink);
    let commits = ended.unwrap_or(None);
    (close(sink, ended), commits)
}

/// Ends a run whose lines ended so: it flushes the sink, unless a write or memory has failed, and answers the status.
fn close<W: Sink>(sink: &mut W, ended: Result<Option<u64>, Stop>) -> u8
    ensures taken { W.taken sink.new ≡ W.taken sink.old }
    ensures wanting { ended ≡ Err stop.NoMemory → sink.new ≡ sink.old }
    ensures closes { Closes ended result (writing W.Sink sink.old sink.new) }
{
    match ended {
        Ok(_) => { if sink.flush() { WHOLE } else { WRITE_FAULT } }
        Err(OrNoMemory::NoMemory) => NO_MEMORY,
        Err(OrNoMemory::Cause(Cause::WriteFault)) => WRITE_FAULT,
        Err(OrNoMemory::Cause(Cause::ReadFault)) => flushed(sink, READ_FAULT),
        Err(OrNoMemory::Cause(Cause::TooManyLines)) => flushed(sink, TOO_MANY_LINES),
    }
}

/// Tries to flush the sink, and answers the status, whatever the flush answers.
fn flushed<W: Sink>(sink: &mut W, status: u8) -> u8
    ensures same { result ≡ status }
    ensures taken { W.taken sink.new ≡ W.taken sink.old }
    ensures tried { TriesFlush (writing W.Sink sink.old sink.new) }
{
    if sink.flush() { status } else { status }
}
