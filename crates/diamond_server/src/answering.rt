//! What a line of the link is answered. The answer is held back, behind those that are.

ghost use Rattle.std.specs.Prelude.{◌≡◌, ◌≤◌, ◌++◌, length, Some, IfOk, IfErr, OnOk, OnErr};
ghost use Rattle.dio_core.specs.Lines.{IsShort};
ghost use Rattle.dio_core.specs.declared.line.Line.TheVariants as cut;
ghost use Rattle.session_core.specs.Holding.{Attends};
ghost use Rattle.session_core.specs.Sessions.{TellsFault};
ghost use Rattle.script_runner.specs.Play.{left};
ghost use Rattle.diamond_server.specs.Promises.{sides};
ghost use Rattle.diamond_server.specs.Talking as spec;
ghost use Rattle.diamond_server.specs.Talking.{Told, Answers, Begins};
ghost use Rattle.diamond_server.specs.code.Serving.{Wakes, MayWake, MayBeginIn, kept, text_of};
ghost use Rattle.diamond_server.specs.code.Serving.{HoldsOver, StopsOver, RepliesOver};

use crate::link::pass_on;
use crate::ongoing::{LineMeans, Ongoing};
use crate::replies::{reply_line, turn_text};
use crate::status::{Cause, Stop, stop_of};
use dio_core::{End, LONGEST_LINE, Line};
use docc_prepare::Waiter;
use plain_data::{OrNoMemory, Text};
use session_core::{Session, SessionError, Turn};
use session_text::{Reply, Why};
use std::alloc::{AllocError, Global};
use watch_reruns::Rerunner;

/// Waits for a commit to tell of, and then does what `sync` does.
fn woken<B: Waiter, R: Rerunner>(
    means: &LineMeans<'_, R>,
    backend: &mut B,
    session: &mut Session,
) -> Result<Turn, SessionError>
    requires attends { Attends (B.known backend.old) session.old }
    ensures woken { IfOk result (λ turn. Wakes B.known B.goes
        backend.old session.old turn backend.new session.new) }
    ensures begun { OnErr result (MayWake B.known B.goes backend.old session.old backend.new) }
    ensures attends { OnOk result (Attends (B.known backend.new) session.new) }
    ensures told { TellsFault (B.known backend.old) (B.known backend.new) result }
    ensures home { B.home backend.new ≡ B.home backend.old }
{
    backend.wait()?;
    session.waited_by(means.alloc, backend, means.reruns)
}

/// Passes on what is held back, and then waits and does what `sync` does.
fn passed_on_and_woken<B: Waiter, K: End, R: Rerunner>(
    means: &LineMeans<'_, R>,
    backend: &mut B,
    link: &mut K,
    ongoing: &mut Ongoing,
) -> Result<Turn, Stop>
    requires attends { Attends (B.known backend.old) ongoing.old.session }
    ensures woken { IfOk result (λ turn. Wakes B.known B.goes
        backend.old ongoing.old.session turn backend.new ongoing.new.session) }
    ensures holds { OnOk result (HoldsOver
        (sides K.Source K.Sink link.old) ongoing.old (sides K.Source K.Sink link.new) ongoing.new) }
    ensures stops { IfErr result (λ stop. StopsOver stop
        (MayWake B.known B.goes backend.old ongoing.old.session backend.new)
        (B.known backend.old) (sides K.Source K.Sink link.old) ongoing.old
        (B.known backend.new) (sides K.Source K.Sink link.new) ongoing.new) }
    ensures incoming { (sides K.Source K.Sink link.new).inwards
        ≡ (sides K.Source K.Sink link.old).inwards }
    ensures attends { OnOk result (Attends (B.known backend.new) ongoing.new.session) }
    ensures home { B.home backend.new ≡ B.home backend.old }
{
    if !pass_on(link, &mut ongoing.held) {
        return Err(OrNoMemory::Cause(Cause::WriteFault));
    }
    match woken(means, backend, &mut ongoing.session) {
        Ok(turn) => Ok(turn),
        Err(why) => Err(stop_of(why)),
    }
}

/// Does a line of the session. One that is to wait waits.
fn said<B: Waiter, K: End, R: Rerunner>(
    means: &LineMeans<'_, R>,
    backend: &mut B,
    link: &mut K,
    ongoing: &mut Ongoing,
    text: &[u8],
) -> Result<Turn, Stop>
    requires attends { Attends (B.known backend.old) ongoing.old.session }
    requires short { length text.now ≤ LONGEST_LINE }
    ensures answers { IfOk result (λ turn. Answers B.known B.goes
        backend.old ongoing.old.session text.now turn backend.new ongoing.new.session) }
    ensures holds { OnOk result (HoldsOver
        (sides K.Source K.Sink link.old) ongoing.old (sides K.Source K.Sink link.new) ongoing.new) }
    ensures stops { IfErr result (λ stop. StopsOver stop
        (Begins B.known B.goes backend.old ongoing.old.session text.now backend.new)
        (B.known backend.old) (sides K.Source K.Sink link.old) ongoing.old
        (B.known backend.new) (sides K.Source K.Sink link.new) ongoing.new) }
    ensures incoming { (sides K.Source K.Sink link.new).inwards
        ≡ (sides K.Source K.Sink link.old).inwards }
    ensures attends { OnOk result (Attends (B.known backend.new) ongoing.new.session) }
    ensures home { B.home backend.new ≡ B.home backend.old }
{
    match ongoing
        .session
        .line_by(means.alloc, backend, means.reruns, text)
    {
        Ok(turn) => match turn {
            Turn::WaitWanted => passed_on_and_woken(means, backend, link, ongoing),
            turn => Ok(turn),
        },
        Err(error) => Err(stop_of(error)),
    }
}

/// Holds back the text of a turn, and says whether the session goes on behind it.
fn hold_turn(alloc: Global, held: &mut Text, turn: &Turn) -> Result<bool, AllocError>
    ensures held { OnOk result (held.new ≡ held.old ++ spec.turn_text turn.now) }
    ensures same { OnErr result (held.new ≡ held.old) }
    ensures left { IfOk result (λ goes_on. (s : Session) → left s turn.now ≡ kept goes_on s) }
{
    let text = turn_text(alloc, turn)?;
    held.extend_from_slice(text.as_slice())?;
    Ok(goes_on(turn))
}

/// Whether a session goes on behind a turn.
fn goes_on(turn: &Turn) -> bool
    ensures { (s : Session) → left s turn.now ≡ kept result s }
{
    match turn {
        Turn::Ended(_) => false,
        _ => true,
    }
}

/// Holds back the refusal of a line that is too long.
fn hold_refusal(alloc: Global, held: &mut Text) -> Result<(), AllocError>
    ensures held { OnOk result (held.new ≡ held.old ++ spec.printed Told.long) }
    ensures same { OnErr result (held.new ≡ held.old) }
{
    let text = reply_line(alloc, &Reply::Refused(Why::Long))?;
    held.extend_from_slice(text.as_slice())
}

/// Does a line of the session, whose text was short enough to be read, and holds back its answer.
fn text_answer<B: Waiter, K: End, R: Rerunner>(
    means: &LineMeans<'_, R>,
    backend: &mut B,
    link: &mut K,
    ongoing: &mut Ongoing,
    text: &Text,
) -> Result<bool, Stop>
    requires attends { Attends (B.known backend.old) ongoing.old.session }
    requires short { length text.now ≤ LONGEST_LINE }
    ensures replies { IfOk result (λ goes_on. RepliesOver B.known B.goes (cut.Bytes text.now) goes_on
        backend.old (sides K.Source K.Sink link.old) ongoing.old
        backend.new (sides K.Source K.Sink link.new) ongoing.new) }
    ensures stops { IfErr result (λ stop. StopsOver stop
        (MayBeginIn B.known B.goes backend.old ongoing.old.session (Some text.now) backend.new)
        (B.known backend.old) (sides K.Source K.Sink link.old) ongoing.old
        (B.known backend.new) (sides K.Source K.Sink link.new) ongoing.new) }
    ensures incoming { (sides K.Source K.Sink link.new).inwards
        ≡ (sides K.Source K.Sink link.old).inwards }
    ensures attends { OnOk result (Attends (B.known backend.new) ongoing.new.session) }
    ensures home { B.home backend.new ≡ B.home backend.old }
{
    match said(means, backend, link, ongoing, text.as_slice()) {
        Ok(turn) => Ok(hold_turn(means.alloc, &mut ongoing.held, &turn)?),
        Err(stop) => Err(stop),
    }
}

/// Does a line that was found, and holds back its answer. It says whether the session goes on.
pub(crate) fn answer<B: Waiter, K: End, R: Rerunner>(
    means: &LineMeans<'_, R>,
    backend: &mut B,
    link: &mut K,
    ongoing: &mut Ongoing,
    line: &Line,
) -> Result<bool, Stop>
    requires attends { Attends (B.known backend.old) ongoing.old.session }
    requires short { IsShort line.now }
    requires some { line.now ≡ cut.End → ⊥ }
    ensures replies { IfOk result (λ goes_on. RepliesOver B.known B.goes line.now goes_on
        backend.old (sides K.Source K.Sink link.old) ongoing.old
        backend.new (sides K.Source K.Sink link.new) ongoing.new) }
    ensures stops { IfErr result (λ stop. StopsOver stop
        (MayBeginIn B.known B.goes backend.old ongoing.old.session (text_of line.now) backend.new)
        (B.known backend.old) (sides K.Source K.Sink link.old) ongoing.old
        (B.known backend.new) (sides K.Source K.Sink link.new) ongoing.new) }
    ensures incoming { (sides K.Source K.Sink link.new).inwards
        ≡ (sides K.Source K.Sink link.old).inwards }
    ensures attends { OnOk result (Attends (B.known backend.new) ongoing.new.session) }
    ensures home { B.home backend.new ≡ B.home backend.old }
{
    match line {
        Line::Bytes(text) => text_answer(means, backend, link, ongoing, text),
        _ => {
            hold_refusal(means.alloc, &mut ongoing.held)?;
            Ok(true)
        }
    }
}
