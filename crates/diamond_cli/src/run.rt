//! `run`: a script, whose watches are run anew by as many workers as there are processors.

ghost use Rattle.script_runner.specs.Script.{reading, writing, KeepsPromises};

use dio_core::{Sink, Source};
use par_rerun::{NoMeet, Parallel};
use rdt_types::Settings;
use script_runner::run_script_by;
use std::alloc::Global;
use std::thread::Threads;

/// Runs a script, and answers its status.
pub(crate) fn run<S: Source, W: Sink, R: Threads>(
    rt: &R,
    alloc: Global,
    settings: &Settings,
    source: &mut S,
    sink: &mut W,
) -> u8
    ensures { KeepsPromises settings.now result (reading S.Source source.old source.new)
        (writing W.Sink sink.old sink.new) }
{
    run_script_by(alloc, settings, source, sink, &Parallel::new(rt, NoMeet))
}
