//! A new watch: its first run, and that it is kept then.

ghost use Rattle.std.specs.Prelude.{◌≡◌, ◌∷◌, [], ◌++◌, None, IfSome, IfOk, OnOk};
ghost use Rattle.rerun_driver.specs.Watches.{watch_of};
ghost use Rattle.client_watches.specs.Watching as spec;
ghost use Rattle.client_watches.specs.Keeping.{Keeps};
ghost use Rattle.client_watches.specs.Lines.{Plays};
ghost use Rattle.client_watches.specs.Lines as lines;

use crate::error::WatchError;
use crate::fetching::fetch;
use crate::new_watch::NewWatch;
use crate::watching::{ReplyList, Watching};
use docc_prepare::Backend;
use plain_data::copied;
use rdt_types::Outcome;
use rerun_driver::{Begun, run_from};
use session_text::Reply;
use std::alloc::{AllocError, Global};
use std::mem::replace;
use txn_eval::Step;
use txn_lang::{Checked, Run, TICK_LIMIT};

/// Runs a body on the values that are held, and on those that it asks for: with each it goes on from where it needed that. Where
/// one of them was late, that was said.
fn run_body<B: Backend>(
    alloc: Global,
    backend: &mut B,
    watching: &mut Watching,
    said: &mut ReplyList,
    body: &Checked,
) -> Result<Option<Run>, WatchError>
    requires { Keeps (B.known backend.old) watching.old }
    ensures plays { Plays B.known B.goes backend.old
        (lines.run_body lines.rounds body.now said.old watching.old)
        result (λ run. (run, watching.new, said.new)) backend.new }
    ensures keeps { IfOk result (λ run. Keeps (B.known backend.new) watching.new) }
    ensures watches { IfOk result (λ run. watching.new.watches ≡ watching.old.watches) }
    ensures done { IfOk result (λ run. IfSome run (spec.HasRun body.now watching.new)) }
    ensures home { B.home backend.new ≡ B.home backend.old }
{
    let mut begun = Begun::new(alloc);
    for _ in 0..TICK_LIMIT + 1 {
        match run_from(alloc, body, &watching.cache, &mut begun)? {
            Step::Done(run) => return Ok(Some(run)),
            Step::Need(address) => {
                if let Some(late) = fetch(backend, watching, address)? {
                    said.push(late)?;
                    return Ok(None);
                }
            }
        }
    }
    // A run needs no more values than it has ticks.
    unreachable!()
}

/// Keeps a new watch, of which the first run is reported.
fn keep(
    watching: &mut Watching,
    said: &mut ReplyList,
    new_watch: NewWatch,
    run: Run,
) -> Result<(), AllocError>
    requires free { watch_of watching.old.watches new_watch.name ≡ None }
    ensures watching { OnOk result
        (watching.new ≡ spec.with_first watching.old new_watch.name new_watch.body run) }
    ensures said { OnOk result
        (said.new ≡ said.old ++ spec.report_of watching.old new_watch.name run ∷ []) }
{
    let number = watching.cache.at();
    let NewWatch { name, body } = new_watch;
    let mut run = run;
    // The watch keeps what the run observed, and the reply its outcome.
    let outcome = replace(&mut run.outcome, Outcome::Spent);
    let shown = copied(&name)?;
    watching.watches.watch(name, body, number, run)?;
    said.push(Reply::Ran(shown, number, outcome))?;
    Ok(())
}

/// Runs a body for the first time, and keeps it as a watch.
pub(crate) fn first_run<B: Backend>(
    alloc: Global,
    backend: &mut B,
    watching: &mut Watching,
    said: &mut ReplyList,
    new_watch: NewWatch,
) -> Result<(), WatchError>
    requires keeps { Keeps (B.known backend.old) watching.old }
    requires free { watch_of watching.old.watches new_watch.name ≡ None }
    ensures plays { Plays B.known B.goes backend.old
        (lines.first_run new_watch.name new_watch.body said.old watching.old)
        result (λ u. (watching.new, said.new)) backend.new }
    ensures keeps { IfOk result (λ u. Keeps (B.known backend.new) watching.new) }
    ensures home { B.home backend.new ≡ B.home backend.old }
{
    if let Some(run) = run_body(alloc, backend, watching, said, &new_watch.body)? {
        keep(watching, said, new_watch, run)?;
    }
    Ok(())
}
