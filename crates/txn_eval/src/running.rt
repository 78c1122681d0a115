//! Whole runs.

ghost use Rattle.std.specs.Prelude.{◌≡◌, IfOk, OnErr, List, [], Err};
ghost use Rattle.rdt_types.specs.declared.address.Address.{Address};
ghost use Rattle.txn_trees.specs.declared.statement.Stmt.{Stmt};
ghost use Rattle.txn_lang.specs.declared.progress.Stop.TheVariants.{NoMemory};
ghost use Rattle.txn_lang.specs.declared.snaps.Snap.{Snap};
ghost use Rattle.txn_lang.specs.Execution.{exec};
ghost use Rattle.txn_eval.specs.Pausing.{IsPauseOf};
ghost use Rattle.txn_eval.specs.Running.{ran_of, values_of};
ghost use Rattle.txn_eval.specs.code.Answers.{EndsAs};

use crate::going::go_through;
use crate::here::Known;
use crate::kept::Kept;
use crate::pause::Pause;
use rdt_types::{Address, DeltaMap, Outcome};
use std::alloc::{AllocError, Global};
use std::mem::replace;
use txn_lang::{Checked, Progress, Run, Snaps, Stop};

/// What a run comes to.
#[derive(Debug, Drop)]
pub enum Step {
    /// It observes an address whose value isn't known.
    Need(Address),
    /// It is done.
    Done(Run),
}

/// A run that was stopped: it drops what it wrote and emitted.
fn stopped(alloc: Global, run: Progress<Kept>, outcome: Outcome) -> Step
    ensures { result ≡ Step.Done (record { outcome = outcome; deltas = []; observations = run.memory.observations }) }
{
    let Progress {
        memory,
        emitted: _,
        ticks: _,
        load: _,
    } = run;
    let Kept {
        buffer: _,
        observations,
    } = memory;
    Step::Done(Run {
        outcome,
        deltas: DeltaMap::new(alloc),
        observations: observations.into_list(),
    })
}

/// A run that came to the end of its body.
fn finished(run: Progress<Kept>) -> Step
    ensures { result ≡ Step.Done (record { outcome = Outcome.Ok run.emitted; deltas = run.memory.buffer; observations = run.memory.observations }) }
{
    let Progress {
        memory,
        emitted,
        ticks: _,
        load: _,
    } = run;
    let Kept {
        buffer,
        observations,
    } = memory;
    Step::Done(Run {
        outcome: Outcome::Ok(emitted),
        deltas: buffer.into_deltas(),
        observations: observations.into_list(),
    })
}

/// How a run ended that has come to a pause, which is then that of a run which begins. Nothing but want of memory is told as that.
fn settled(alloc: Global, pause: &mut Pause, ran: Result<(), Stop>) -> Result<Step, AllocError>
    ensures ended { IfOk result (λ step. EndsAs ran pause.old.run (ran_of step)) }
    ensures told { OnErr result (ran ≡ Err NoMemory) }
    ensures begun { (stmts : List Stmt) (snaps : List (Address × Snap)) → IsPauseOf stmts snaps pause.new }
{
    let done = replace(pause, Pause::begun(alloc));
    let Pause {
        at: _,
        names: _,
        run,
        trail: _,
    } = done;
    match ran {
        Ok(()) => Ok(finished(run)),
        Err(Stop::Need(address)) => Ok(Step::Need(address)),
        Err(Stop::Fail(reason)) => Ok(stopped(alloc, run, Outcome::Fail(reason))),
        Err(Stop::Spent) => Ok(stopped(alloc, run, Outcome::Spent)),
        Err(Stop::Big) => Ok(stopped(alloc, run, Outcome::Big)),
        Err(Stop::NoMemory) => Err(AllocError),
    }
}

/// Goes on with the run of a checked body from a pause, on values that may be more than it came on. Where it needs a value it
/// leaves a pause from which it may go on; else it is done, as the run from the start is, and the pause is that of a run which
/// begins. So it is where memory runs out, and the call may be made again.
pub fn go_on(
    alloc: Global,
    body: &Checked,
    snaps: &Snaps,
    pause: &mut Pause,
) -> Result<Step, AllocError>
    requires { IsPauseOf body.now.body.stmts snaps.now pause.old }
    ensures ran { IfOk result (λ step. ran_of step ≡ exec body.now.body (values_of snaps.now)) }
    ensures paused { IfOk result (λ step. IsPauseOf body.now.body.stmts snaps.now pause.new) }
    ensures again { OnErr result (IsPauseOf body.now.body.stmts snaps.now pause.new) }
{
    match go_through(&Known { alloc, snaps }, pause, body.body.stmts.as_slice()) {
        Ok(()) => settled(alloc, pause, Ok(())),
        Err(stop) => match stop {
            Stop::Need(address) => Ok(Step::Need(address)),
            stop => settled(alloc, pause, Err(stop)),
        },
    }
}

/// Runs a checked body on the values of the snaps. It needs the value of an address exactly where the run by the definition
/// does, and else it is done, as that is, with its outcome, its deltas and its observations in their order.
pub fn run(alloc: Global, body: &Checked, snaps: &Snaps) -> Result<Step, AllocError>
    ensures { IfOk result (λ step. ran_of step ≡ exec body.now.body (values_of snaps.now)) }
{
    go_on(alloc, body, snaps, &mut Pause::begun(alloc))
}
