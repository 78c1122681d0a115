//! A session of one client over a link: its lines are read, done and answered, one after another.

ghost use Rattle.std.specs.Prelude.{◌≡◌, [], true, Ok, OnOk};
ghost use Rattle.session_core.specs.Holding.{Attends};
ghost use Rattle.docc_prepare.specs.Readable.{IsNew};
ghost use Rattle.diamond_server.specs.Promises.{sides, KeepsPromises, TellsStoreFault};
ghost use Rattle.diamond_server.specs.code.Serving as spec;
ghost use Rattle.diamond_server.specs.code.Serving.{TurnsOver, Ends};

use crate::answering::answer;
use crate::link::{await_line, find_line, settle};
use crate::ongoing::{LineMeans, Ongoing};
use crate::status::{Cause, Stop, status_of};
use dio_core::{End, Line};
use docc_prepare::Waiter;
use plain_data::{OrNoMemory, Text};
use script_runner::MOST_LINES;
use session_core::Session;
use std::alloc::Global;
use watch_reruns::{One, Rerunner};

/// Finds and does one line, and holds back what answers it. `true` says that another may follow.
fn do_line<B: Waiter, K: End, R: Rerunner>(
    means: &LineMeans<'_, R>,
    backend: &mut B,
    link: &mut K,
    ongoing: &mut Ongoing,
) -> Result<bool, Stop>
    requires attends { Attends (B.known backend.old) ongoing.old.session }
    ensures turns { TurnsOver B.known B.goes result
        backend.old (sides K.Source K.Sink link.old) ongoing.old
        backend.new (sides K.Source K.Sink link.new) ongoing.new }
    ensures attends { OnOk result (Attends (B.known backend.new) ongoing.new.session) }
    ensures home { B.home backend.new ≡ B.home backend.old }
{
    let line = match find_line(means.alloc, link, &mut ongoing.held)? {
        Line::End => return Ok(false),
        line => line,
    };
    answer(means, backend, link, ongoing, &line)
}

/// Finds, does and answers one line. Only where another may follow is an answer held back.
fn serve_line<B: Waiter, K: End, R: Rerunner>(
    means: &LineMeans<'_, R>,
    backend: &mut B,
    link: &mut K,
    ongoing: &mut Ongoing,
) -> Result<bool, Stop>
    requires attends { Attends (B.known backend.old) ongoing.old.session }
    ensures turns { TurnsOver B.known B.goes result
        backend.old (sides K.Source K.Sink link.old) ongoing.old
        backend.new (sides K.Source K.Sink link.new) ongoing.new }
    ensures emptied { (result ≡ Ok true → ⊥) → ongoing.new.held ≡ [] }
    ensures attends { result ≡ Ok true → Attends (B.known backend.new) ongoing.new.session }
    ensures home { B.home backend.new ≡ B.home backend.old }
{
    let outcome = do_line(means, backend, link, ongoing);
    settle(link, &mut ongoing.held, outcome)
}

/// Serves the lines of a link to its end, or to a line that ends the session.
fn serve_lines<B: Waiter, K: End, R: Rerunner>(
    means: &LineMeans<'_, R>,
    backend: &mut B,
    link: &mut K,
) -> Result<(), Stop>
    requires new { IsNew (B.known backend.old) }
    ensures ends { Ends B.known B.goes result
        backend.old (sides K.Source K.Sink link.old)
        backend.new (sides K.Source K.Sink link.new) }
    ensures home { B.home backend.new ≡ B.home backend.old }
{
    let _shards = backend.shards();
    let session = Session::new(means.alloc, backend.client(), backend.seen());
    let held = Text::new(means.alloc);
    let mut ongoing = Ongoing { session, held };
    for _ in 0..MOST_LINES {
        if !serve_line(means, backend, link, &mut ongoing)? {
            return Ok(());
        }
    }
    at_most(&await_line(means.alloc, link, &mut ongoing.held)?)
}

/// How the lines end behind the last one that may be read: with the input, or there is one more.
fn at_most(line: &Line) -> Result<(), Stop>
    ensures { result ≡ spec.at_most line.now }
{
    match line {
        Line::End => Ok(()),
        Line::Bytes(_) | Line::TooLong => Err(OrNoMemory::Cause(Cause::TooManyLines)),
    }
}

/// Serves a session of the backend's client over a link: each line is read, done and answered before the next one is done. Answers
/// are held back only while another line is at hand, which was read ahead; none is while the next one is waited for. It answers a
/// status.
///
/// 0: the input was read to its end, or to a line that ended the session. 3: a read failed. 4: a write or a flush failed. 5:
/// there was no memory. 6: the store failed. 9: there is a line behind the last one that may be read.
pub fn serve_session<B: Waiter, K: End>(alloc: Global, backend: &mut B, link: &mut K) -> u8
    requires new { IsNew (B.known backend.old) }
    ensures promises { KeepsPromises B.known B.goes result backend.old backend.new
        (sides K.Source K.Sink link.old) (sides K.Source K.Sink link.new) }
    ensures told { TellsStoreFault (B.known backend.old) (B.known backend.new) result }
    ensures home { B.home backend.new ≡ B.home backend.old }
{
    serve_by(alloc, backend, link, &One)
}

/// The same, where reruns of watches are made by others.
pub fn serve_by<B: Waiter, K: End, R: Rerunner>(
    alloc: Global,
    backend: &mut B,
    link: &mut K,
    reruns: &R,
) -> u8
    requires new { IsNew (B.known backend.old) }
    ensures promises { KeepsPromises B.known B.goes result backend.old backend.new
        (sides K.Source K.Sink link.old) (sides K.Source K.Sink link.new) }
    ensures told { TellsStoreFault (B.known backend.old) (B.known backend.new) result }
    ensures home { B.home backend.new ≡ B.home backend.old }
{
    let ended = serve_lines(&LineMeans { alloc, reruns }, backend, link);
    status_of(ended)
}
