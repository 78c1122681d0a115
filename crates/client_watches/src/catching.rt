//! Watches are brought up to date: the stale ones run anew, and are reported in the order of their making.

ghost use Rattle.std.specs.Prelude.{◌≡◌, ◌<◌, ◌∷◌, [], ◌++◌, true, IfOk, OnOk, IfNone, IfSome, IsSome};
ghost use Rattle.client_cache.specs.Cached.{held};
ghost use Rattle.rerun_driver.specs.Watches.{watch_of};
ghost use Rattle.watch_reruns.specs.declared.reruns.Reruns.TheVariants as reruns_of;
ghost use Rattle.watch_reruns.specs.Reruns.{all_reruns};
ghost use Rattle.docc_prepare.specs.Calls.{Known};
ghost use Rattle.call_programs.specs.Programs.{Program};
ghost use Rattle.client_watches.specs.Watching as spec;
ghost use Rattle.client_watches.specs.Keeping.{AreDistinct, Keeps};
ghost use Rattle.client_watches.specs.Lines.{Plays, GoesOn};
ghost use Rattle.client_watches.specs.Lines as lines;

use crate::error::WatchError;
use crate::fetching::fetch;
use crate::means::Means;
use crate::replies::say;
use crate::watching::{AddressList, ReplyList, Watching};
use docc_prepare::Backend;
use plain_data::{Text, copied};
use rdt_types::Outcome;
use rerun_driver::{Driver, Rerun};
use session_text::Reply;
use std::alloc::AllocError;
use std::mem::replace;
use txn_lang::{Run, Seen, TICK_LIMIT};
use watch_reruns::{Rerunner, Reruns, RunList};

/// Adds the addresses at which something was observed.
fn add_addresses(loose: &mut AddressList, observations: &[Seen]) -> Result<(), AllocError>
    ensures { OnOk result (loose.new ≡ loose.old ++ spec.addresses_of observations.now) }
{
    for seen in observations {
        loose.push(copied(&seen.address)?)?;
    }
    Ok(())
}

/// What the last run of a watch observed may be observed no longer.
pub(crate) fn loosen(
    watches: &Driver,
    loose: &mut AddressList,
    name: &Text,
) -> Result<(), AllocError>
    ensures { OnOk result
        (loose.new ≡ loose.old ++ spec.observed_by (watch_of watches.now name.now)) }
{
    match watches.get(name) {
        Some(watch) => add_addresses(loose, watch.observations.as_slice()),
        None => Ok(()),
    }
}

/// A watch takes the report of its run, which is said.
fn report(
    watching: &mut Watching,
    said: &mut ReplyList,
    name: Text,
    run: Run,
) -> Result<(), AllocError>
    requires there { IsSome (watch_of watching.old.watches name) }
    ensures watching { OnOk result (watching.new ≡ spec.with_rerun watching.old name run) }
    ensures said { OnOk result (said.new ≡ said.old ++ spec.report_of watching.old name run ∷ []) }
{
    let number = watching.cache.at();
    let mut run = run;
    // The watch keeps what the run observed, and the reply its outcome.
    let outcome = replace(&mut run.outcome, Outcome::Spent);
    loosen(&watching.watches, &mut watching.loose, &name)?;
    watching.watches.reserve(&run)?;
    watching.watches.settle(&name, number, run);
    say(said, Reply::Ran(name, number, outcome))
}

/// Runs the first stale watch, and reads each value that its run needs. Where none was stale, or a value was late and that was
/// said, it answers whether none was.
fn rerun_one<B: Backend>(
    backend: &mut B,
    watching: &mut Watching,
    said: &mut ReplyList,
) -> Result<Option<bool>, WatchError>
    requires { Keeps (B.known backend.old) watching.old }
    ensures plays { Plays B.known B.goes backend.old
        (lines.rerun_one lines.rounds said.old watching.old)
        result (λ all. (all, watching.new, said.new)) backend.new }
    ensures keeps { IfOk result (λ all. Keeps (B.known backend.new) watching.new) }
    ensures free { IfOk result (λ all. spec.KeepsFree watching.old watching.new) }
    ensures fewer { IfOk result (λ all. IfNone all (spec.IsOneFewer watching.old watching.new)) }
    ensures home { B.home backend.new ≡ B.home backend.old }
{
    for _ in 0..TICK_LIMIT + 1 {
        match watching.watches.run_next(&watching.cache)? {
            Rerun::NoneLeft => return Ok(Some(true)),
            Rerun::Ran(name, run) => {
                report(watching, said, name, run)?;
                return Ok(None);
            }
            Rerun::Need(address) => {
                if let Some(late) = fetch(backend, watching, address)? {
                    said.push(late)?;
                    return Ok(Some(false));
                }
            }
        }
    }
    // A run needs no more values than it has ticks.
    unreachable!()
}

/// The runs of all stale watches on the values that are held, unless one of them needs another value.
fn runs_of<R: Rerunner>(
    means: &Means<'_, R>,
    watching: &Watching,
) -> Result<Option<RunList>, AllocError>
    ensures { IfOk result (λ runs. IfSome runs (λ list.
        all_reruns (held watching.now.cache) watching.now.watches ≡ reruns_of.Ran list)) }
{
    match means
        .reruns
        .rerun(means.alloc, &watching.watches, &watching.cache)?
    {
        Reruns::Ran(list) => Ok(Some(list)),
        Reruns::Need(_) => Ok(None),
    }
}

/// The stale watches take the reports of their runs, in order, which are said. No watch is stale then.
fn report_all(
    watching: &mut Watching,
    said: &mut ReplyList,
    runs: RunList,
) -> Result<(), AllocError>
    requires names { AreDistinct watching.old.watches }
    requires all { all_reruns (held watching.old.cache) watching.old.watches ≡ reruns_of.Ran runs }
    ensures done { OnOk result
        (lines.catch_up watching.old said.old ≡ Program.ends (true, watching.new, said.new)) }
    ensures keeps { OnOk result ((k : Known) → Keeps k watching.old → Keeps k watching.new) }
    ensures free { OnOk result (spec.KeepsFree watching.old watching.new) }
{
    for ran in runs.into_vec() {
        let (name, run) = ran;
        report(watching, said, name, run)?;
    }
    Ok(())
}

/// Runs so many stale watches one after another, if there are as many, and reads each value that their runs need. Where none was
/// stale any longer, or a value was late and that was said, it answers whether none was.
fn rerun_some<B: Backend>(
    backend: &mut B,
    watching: &mut Watching,
    said: &mut ReplyList,
    count: usize,
) -> Result<Option<bool>, WatchError>
    requires keeps { Keeps (B.known backend.old) watching.old }
    requires some { 0 < count }
    ensures goes { GoesOn B.known B.goes backend.old (watching.old, said.old) result backend.new
        (watching.new, said.new) }
    ensures keeps { IfOk result (λ all. Keeps (B.known backend.new) watching.new) }
    ensures free { IfOk result (λ all. spec.KeepsFree watching.old watching.new) }
    ensures fewer { IfOk result (λ all. IfNone all (spec.AreFewer watching.old watching.new)) }
    ensures home { B.home backend.new ≡ B.home backend.old }
{
    for _ in 0..count {
        if let Some(all) = rerun_one(backend, watching, said)? {
            return Ok(Some(all));
        }
    }
    Ok(None)
}

/// Runs the stale watches. It answers whether none is stale then; else a value was late, and that was said.
///
/// The runs are made all at once, by who makes reruns, and reported in order. Where one needs a value that isn't held, watches run
/// one after another, as many as were reported so far, before all are tried again. So if each needs one, few runs are made twice.
pub(crate) fn catch_up<B: Backend, R: Rerunner>(
    means: &Means<'_, R>,
    backend: &mut B,
    watching: &mut Watching,
    said: &mut ReplyList,
) -> Result<bool, WatchError>
    requires { Keeps (B.known backend.old) watching.old }
    ensures plays { Plays B.known B.goes backend.old (lines.catch_up watching.old said.old) result
        (λ all. (all, watching.new, said.new)) backend.new }
    ensures keeps { IfOk result (λ all. Keeps (B.known backend.new) watching.new) }
    ensures free { IfOk result (λ all. spec.KeepsFree watching.old watching.new) }
    ensures home { B.home backend.new ≡ B.home backend.old }
{
    loop {
        if let Some(runs) = runs_of(means, watching)? {
            report_all(watching, said, runs)?;
            return Ok(true);
        }
        let count = said.len().max(1);
        if let Some(all) = rerun_some(backend, watching, said, count)? {
            return Ok(all);
        }
    }
}
