//! Bodies, run anew on the state.

ghost use Rattle.std.specs.Prelude.{◌≡◌, IfOk, IfSome, OnOk};
ghost use Rattle.txn_lang.specs.States.{known};
ghost use Rattle.txn_lang.specs.Execution.{exec, done};
ghost use Rattle.audit_core.specs.Dumps.{state_of};
ghost use Rattle.audit_core.specs.code.Running.{IsBodyOf, IsRunOrNone, KeepsLent, RunsOnLent, with_lent, without_value};

use crate::reading::body_of;
use crate::state::State;
use plain_data::Text;
use rdt_types::Address;
use std::alloc::{AllocError, Global};
use txn_eval::{Pause, Step, go_on};
use txn_lang::{Checked, Run, Snap, Snaps, TICK_LIMIT};
use txn_trees::Body;

/// Lends a value of the state to a run.
fn lend(state: &mut State, snaps: &mut Snaps, address: Address) -> Result<(), AllocError>
    ensures lent { OnOk result (snaps.new ≡ with_lent snaps.old state.old address) }
    ensures without { state.new ≡ without_value state.old address }
{
    let value = state.lend(&address);
    snaps.insert(address, Snap { base: 0, value })
}

/// Runs a body on the state, which lends it each value that it needs.
fn run_lent(
    alloc: Global,
    body: &Checked,
    state: &mut State,
    snaps: &mut Snaps,
) -> Result<Run, AllocError>
    ensures ran { IfOk result (RunsOnLent body.now.body state.old snaps.old) }
    ensures lent { OnOk result (KeepsLent state.old snaps.old state.new snaps.new) }
{
    let mut pause = Pause::begun(alloc);
    for _ in 0..TICK_LIMIT + 1 {
        match go_on(alloc, body, snaps, &mut pause)? {
            Step::Done(run) => return Ok(run),
            Step::Need(address) => lend(state, snaps, address)?,
        }
    }
    // A run needs no more values than it has ticks.
    unreachable!()
}

/// The run of a body on the state, which is the same afterwards.
fn run_on(alloc: Global, body: &Checked, state: &mut State) -> Result<Run, AllocError>
    ensures ran { IfOk result (λ run. exec body.now.body (known (state_of state.old)) ≡ done run) }
    ensures same { OnOk result (state_of state.new ≡ state_of state.old) }
{
    let mut snaps = Snaps::new(alloc);
    let run = run_lent(alloc, body, state, &mut snaps);
    state.take_back(snaps.into_vec());
    run
}

/// The run of a text's body on the state, if the text is that of a body. The body may be given.
pub(crate) fn run_of(
    alloc: Global,
    text: &Text,
    given: Option<Body>,
    state: &mut State,
) -> Result<Option<Run>, AllocError>
    requires { IfSome given (IsBodyOf text.now) }
    ensures ran { IfOk result (IsRunOrNone (known (state_of state.old)) text.now) }
    ensures same { OnOk result (state_of state.new ≡ state_of state.old) }
{
    match body_of(alloc, text, given)? {
        None => Ok(None),
        Some(body) => match run_on(alloc, &body, state) {
            Ok(run) => Ok(Some(run)),
            Err(error) => Err(error),
        },
    }
}
