//! Looks: runs on a prefix of the journal, by reads at its number.

ghost use Rattle.std.specs.Prelude.{◌≡◌, ◌≤◌};
ghost use Rattle.docc_prepare.specs.Calls.{value_answered};
ghost use Rattle.session_core.specs.Holding.{Attends};
ghost use Rattle.session_core.specs.code.Turning.{Valued};
ghost use Rattle.session_core.specs.Verbs as verbs;
ghost use Rattle.session_core.specs.Verbs.{Plays};

use crate::error::SessionError;
use crate::limits::MOST_EVENTS;
use crate::session::Session;
use docc_prepare::{Backend, ReadAtError};
use rdt_types::{Address, Value};
use session_text::Reply;
use std::alloc::{AllocError, Global};
use txn_eval::{Pause, Step, go_on};
use txn_lang::{Checked, Snap, Snaps};

/// What an answered read at a number comes to: a value more, or a reply.
fn valued(
    snaps: &mut Snaps,
    address: Address,
    number: u64,
    answer: Result<Value, ReadAtError>,
) -> Result<Option<Reply>, SessionError>
    ensures { Valued snaps.old address number (value_answered answer) result snaps.new }
{
    match answer {
        Ok(value) => match snaps.insert(
            address,
            Snap {
                base: number,
                value,
            },
        ) {
            Ok(()) => Ok(None),
            Err(AllocError) => Err(SessionError::NoMemory),
        },
        Err(error) => match error {
            ReadAtError::Late(named, horizon) => Ok(Some(Reply::Late(named, horizon))),
            ReadAtError::Fault => Err(SessionError::StoreFault),
            ReadAtError::NoMemory => Err(SessionError::NoMemory),
        },
    }
}

/// Runs a body on the prefix of so many commits. With each value that is read it goes on from where it needed that.
fn look_at<B: Backend>(
    alloc: Global,
    backend: &mut B,
    session: &Session,
    number: u64,
    body: &Checked,
) -> Result<Reply, SessionError>
    requires attends { Attends (B.known backend.old) session.now }
    requires seen { number ≤ (B.known backend.old).seen }
    ensures plays { Plays B.known B.goes backend.old (verbs.look_at number body.now) result
        (λ reply. reply) backend.new }
    ensures home { B.home backend.new ≡ B.home backend.old }
{
    let mut snaps = Snaps::new(alloc);
    let mut pause = Pause::begun(alloc);
    for _ in 0..MOST_EVENTS {
        match go_on(alloc, body, &snaps, &mut pause)? {
            Step::Done(run) => return Ok(Reply::At(number, run.outcome)),
            Step::Need(address) => {
                let answer = backend.read_at(&address, number);
                if let Some(reply) = valued(&mut snaps, address, number, answer)? {
                    return Ok(reply);
                }
            }
        }
    }
    // A run needs no more values than it has ticks.
    unreachable!()
}

/// Runs a body on the prefix of so many commits, or on all that is seen now.
pub fn look<B: Backend>(
    alloc: Global,
    backend: &mut B,
    session: &Session,
    upto: Option<u64>,
    body: &Checked,
) -> Result<Reply, SessionError>
    requires attends { Attends (B.known backend.old) session.now }
    ensures plays { Plays B.known B.goes backend.old (verbs.look upto body.now) result
        (λ reply. reply) backend.new }
    ensures home { B.home backend.new ≡ B.home backend.old }
{
    let seen = backend.refresh()?;
    match upto {
        None => look_at(alloc, backend, session, seen, body),
        Some(number) => {
            if seen < number {
                return Ok(Reply::Ahead(number, seen));
            }
            look_at(alloc, backend, session, number, body)
        }
    }
}
