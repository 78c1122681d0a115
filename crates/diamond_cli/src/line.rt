//! The line that says what came of the links.

ghost use Rattle.std.specs.Prelude.{◌≡◌, length, IfOk, OnErr};
ghost use Rattle.script_runner.specs.Script.{writing};
ghost use Rattle.diamond_cli.specs.Serving.{served_line, IsTried, ending, IsSaid};

use diamond_server::Tally;
use dio_core::{NEWLINE, Sink, write_all};
use dtext::push_natural;
use plain_data::Text;
use script_runner::{WHOLE, WRITE_FAULT};
use std::alloc::{AllocError, Global};
use txn_lang::CommitList;

/// An accept of the listener failed.
pub const LISTENER_FAULT: u8 = 8;

/// The line of what came of the links and of the store's commits.
fn line_of(alloc: Global, tally: Tally, commits: &CommitList) -> Result<Text, AllocError>
    ensures { IfOk result (λ line. line
        ≡ served_line tally.accepted tally.faulted (length commits.now)) }
{
    let mut line = Text::new(alloc);
    line.extend_from_slice(b"served ")?;
    push_natural(&mut line, u64::from(tally.accepted))?;
    line.extend_from_slice(b" sessions ")?;
    push_natural(&mut line, u64::from(tally.faulted))?;
    line.extend_from_slice(b" faulted commits ")?;
    push_natural(&mut line, commits.len() as u64)?;
    line.push(NEWLINE)?;
    Ok(line)
}

/// Writes a line and passes it on. `false` is a fault of the sink.
pub(crate) fn tell<W: Sink>(sink: &mut W, line: &[u8]) -> bool
    ensures { IsTried line.now result (writing W.Sink sink.old sink.new) }
{
    write_all(sink, line) && sink.flush()
}

/// The status, by whether an accept had failed and whether the line was written.
fn status_of(failed: bool, written: bool) -> u8
    ensures { result ≡ ending failed written }
{
    match (failed, written) {
        (true, _) => LISTENER_FAULT,
        (false, true) => WHOLE,
        (false, false) => WRITE_FAULT,
    }
}

/// Writes the line, and answers the status, unless memory was wanting. Then nothing was written.
pub(crate) fn say<W: Sink>(
    alloc: Global,
    tally: Tally,
    commits: &CommitList,
    sink: &mut W,
) -> Result<u8, AllocError>
    ensures said { IfOk result (λ status. IsSaid tally commits.now status
        (writing W.Sink sink.old sink.new)) }
    ensures unwritten { OnErr result (sink.new ≡ sink.old) }
{
    let line = line_of(alloc, tally, commits)?;
    let written = tell(sink, line.as_slice());
    Ok(status_of(tally.failed, written))
}
