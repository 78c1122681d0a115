//! The script of a load is made, run, and counted.

ghost use Rattle.std.specs.Prelude.{◌≡◌, ◌↔◌, ℕ, Ok, Some, IfOk};
ghost use Rattle.load_script.specs.LoadLine.{load_line as printed};
ghost use Rattle.script_runner.specs.Play.{play, commits_left};
ghost use Rattle.script_runner.specs.Script.{writing};
ghost use Rattle.load_runner.specs.Loads.{line_of_load, IsTried, Loads};

use dio_core::{MemSink, MemSource, Sink, write_all};
use load_script::{load_line, load_text};
use plain_data::Text;
use rdt_types::Settings;
use script_runner::{NO_MEMORY, WHOLE, WRITE_FAULT, run_counted};
use std::alloc::{AllocError, Global};
use watch_reruns::One;

/// How many bytes the streams in memory give and take in a call, at most.
const PIECE: usize = 65_536;

/// How many commits are counted of a run with this status. An error is want of memory: in the run, or to count them.
fn counted_at(status: u8, commits: Option<u64>) -> Result<u64, AllocError>
    ensures { (n : ℕ) → (result ≡ Ok n) ↔ ((status ≡ WHOLE) × (commits ≡ Some n)) }
{
    match commits {
        Some(commits) if status == WHOLE => Ok(commits),
        _ => Err(AllocError),
    }
}

/// The line of a script of so many rounds: it is run, and its replies are counted. An error is want of memory, in the run too.
fn counted(alloc: Global, settings: &Settings, count: u32, text: &[u8]) -> Result<Text, AllocError>
    ensures { IfOk result (λ line. line ≡ printed count (play settings.now text.now).output
        (commits_left settings.now text.now)) }
{
    let mut source = MemSource::new(alloc, text, PIECE, &[])?;
    let mut sink = MemSink::new(alloc, PIECE, &[])?;
    let (status, commits) = run_counted(alloc, settings, &mut source, &mut sink, &One);
    let commits = counted_at(status, commits)?;
    load_line(alloc, count, sink.taken(), commits)
}

/// The line of the load that a number makes. An error is want of memory.
fn line_of(alloc: Global, settings: &Settings, seed: u32, count: u32) -> Result<Text, AllocError>
    ensures { IfOk result (λ line. line ≡ line_of_load settings.now seed count) }
{
    let text = load_text(alloc, seed, count)?;
    counted(alloc, settings, count, text.as_slice())
}

/// Writes a line and passes it on. `false` is a fault of the sink.
fn tell<W: Sink>(sink: &mut W, line: &[u8]) -> bool
    ensures { IsTried line.now result (writing W.Sink sink.old sink.new) }
{
    write_all(sink, line) && sink.flush()
}

/// Runs the script that a number makes, of so many rounds, and writes one line of what came of it to the sink. It answers a status.
///
/// 0: the line was written and passed on. 4: a write or the flush failed. 5: there was no memory.
pub fn run_load<W: Sink>(
    alloc: Global,
    settings: &Settings,
    seed: u32,
    count: u32,
    sink: &mut W,
) -> u8
    ensures { Loads settings.now seed count result (writing W.Sink sink.old sink.new) }
{
    match line_of(alloc, settings, seed, count) {
        Ok(line) => {
            if tell(sink, line.as_slice()) {
                WHOLE
            } else {
                WRITE_FAULT
            }
        }
        Err(AllocError) => NO_MEMORY,
    }
}
