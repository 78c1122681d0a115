//! A link as a session uses it: lines come in, and texts go out. Texts are held back while lines are at hand that were read ahead.

ghost use Rattle.std.specs.Prelude.{◌≡◌, ◌≤◌, [], length, true, not, Ok, None, IfOk, IfErr, OnErr, IfSome};
ghost use Rattle.std.specs.Bool.{OnTrue};
ghost use Rattle.dio_core.specs.Counts.{IsCounted};
ghost use Rattle.dio_core.specs.Lines.{TakesLine, IsShort};
ghost use Rattle.dio_core.specs.Links.{incoming, outgoing};
ghost use Rattle.dio_core.specs.Sinks.{with_more, TakesPrefix, IsPassedOn};
ghost use Rattle.dio_core.specs.Told.{WhereTold};
ghost use Rattle.diamond_server.specs.Promises.{sides, ReadsNext};
ghost use Rattle.diamond_server.specs.code.Serving.{read_stopped, StopsReading, PassesOn, IsAtHand, FindsLine, Settles};

use crate::status::{Cause, Stop};
use dio_core::{End, LONGEST_LINE, Line, LineFault, next_line, write_all};
use plain_data::{OrNoMemory, Text};
use std::alloc::{AllocError, Global};

/// The most bytes that are held back where another line is at hand.
const MOST_HELD: usize = 65_536;

/// The next line that comes.
fn read_line<K: End>(alloc: Global, link: &mut K) -> Result<Line, Stop>
    ensures line { IfOk result (λ line. TakesLine line (K.left link.old) (K.left link.new)) }
    ensures short { IfOk result IsShort }
    ensures stops { IfErr result (λ stop. StopsReading stop (K.left link.old) (K.left link.new)) }
    ensures reads { IsCounted (read_stopped result) (K.read_faults link.old) (K.read_faults link.new) }
    ensures outgoing { outgoing (K.taken link.new) (K.passed link.new) (K.write_faults link.new)
        ≡ outgoing (K.taken link.old) (K.passed link.old) (K.write_faults link.old) }
{
    match next_line(alloc, link) {
        Ok(line) => Ok(line),
        Err(LineFault::ReadFault) => Err(OrNoMemory::Cause(Cause::ReadFault)),
        Err(LineFault::NoMemory) => Err(OrNoMemory::NoMemory),
    }
}

/// Writes a text, and passes it on. `false` is a fault of the link.
fn say<K: End>(link: &mut K, text: &[u8]) -> bool
    ensures taken { OnTrue result (K.taken link.new ≡ with_more (K.taken link.old) text.now) }
    ensures part { TakesPrefix text.now (K.taken link.old) (K.taken link.new) }
    ensures passed { OnTrue result (IsPassedOn (K.taken link.new) (K.passed link.new)) }
    ensures writes { IsCounted (not result) (K.write_faults link.old) (K.write_faults link.new) }
    ensures incoming { incoming (K.left link.new) (K.read_faults link.new) ≡ incoming (K.left link.old) (K.read_faults link.old) }
{
    write_all(link, text) && link.flush()
}

/// Passes on what is held back. Nothing is held then; `false` is a fault of the link.
pub fn pass_on<K: End>(link: &mut K, held: &mut Text) -> bool
    ensures passes { PassesOn result (sides K.Source K.Sink link.old).outwards held.old (sides K.Source K.Sink link.new).outwards }
    ensures none { held.new ≡ [] }
    ensures incoming { (sides K.Source K.Sink link.new).inwards ≡ (sides K.Source K.Sink link.old).inwards }
{
    if held.is_empty() {
        return true;
    }
    let said = say(link, held.as_slice());
    held.truncate(0);
    said
}

/// The next line, if it is at hand and fits into the buffer.
fn line_ahead_in<K: End>(
    alloc: Global,
    link: &mut K,
    buf: &mut [u8],
) -> Result<Option<Line>, AllocError>
    requires { length buf.old ≤ LONGEST_LINE }
    ensures line { IfOk result (λ found. IsAtHand found (K.left link.old) (K.left link.new)) }
    ensures short { IfOk result (λ found. IfSome found IsShort) }
    ensures lost { OnErr result (WhereTold (ReadsNext None) (K.left link.old) (K.left link.new)) }
    ensures reads { K.read_faults link.new ≡ K.read_faults link.old }
    ensures outgoing { outgoing (K.taken link.new) (K.passed link.new) (K.write_faults link.new)
        ≡ outgoing (K.taken link.old) (K.passed link.old) (K.write_faults link.old) }
{
    match link.line_ahead(buf) {
        Some(count) => {
            let line = Text::from_slice(alloc, &buf[..count])?;
            Ok(Some(Line::Bytes(line)))
        }
        None => Ok(None),
    }
}

/// The next line, if it is at hand.
fn line_at_hand<K: End>(alloc: Global, link: &mut K) -> Result<Option<Line>, AllocError>
    ensures line { IfOk result (λ found. IsAtHand found (K.left link.old) (K.left link.new)) }
    ensures short { IfOk result (λ found. IfSome found IsShort) }
    ensures lost { OnErr result (WhereTold (ReadsNext None) (K.left link.old) (K.left link.new)) }
    ensures reads { K.read_faults link.new ≡ K.read_faults link.old }
    ensures outgoing { outgoing (K.taken link.new) (K.passed link.new) (K.write_faults link.new)
        ≡ outgoing (K.taken link.old) (K.passed link.old) (K.write_faults link.old) }
{
    let mut buf = [0; LONGEST_LINE];
    line_ahead_in(alloc, link, &mut buf)
}

/// The next line that comes, for which it is waited once what is held back was passed on.
pub fn await_line<K: End>(alloc: Global, link: &mut K, held: &mut Text) -> Result<Line, Stop>
    ensures finds { FindsLine result (sides K.Source K.Sink link.old) held.old (sides K.Source K.Sink link.new) held.new }
    ensures short { IfOk result IsShort }
    ensures emptied { held.new ≡ [] }
{
    if !pass_on(link, held) {
        return Err(OrNoMemory::Cause(Cause::WriteFault));
    }
    read_line(alloc, link)
}

/// The next line: the one that is at hand, or else the next that comes.
pub fn find_line<K: End>(alloc: Global, link: &mut K, held: &mut Text) -> Result<Line, Stop>
    ensures finds { FindsLine result (sides K.Source K.Sink link.old) held.old (sides K.Source K.Sink link.new) held.new }
    ensures short { IfOk result IsShort }
{
    match line_at_hand(alloc, link)? {
        Some(line) => Ok(line),
        None => await_line(alloc, link, held),
    }
}

/// Whether another line may follow.
fn goes_on(outcome: Result<bool, Stop>) -> bool
    ensures { result ≡ true → outcome ≡ Ok true }
{
    matches!(outcome, Ok(true))
}

/// Passes on what is held back, unless the session goes on and it is not too much.
pub fn settle<K: End>(
    link: &mut K,
    held: &mut Text,
    outcome: Result<bool, Stop>,
) -> Result<bool, Stop>
    ensures settles { Settles outcome result (sides K.Source K.Sink link.old).outwards held.old
        (sides K.Source K.Sink link.new).outwards held.new }
    ensures emptied { (result ≡ Ok true → ⊥) → held.new ≡ [] }
    ensures incoming { (sides K.Source K.Sink link.new).inwards ≡ (sides K.Source K.Sink link.old).inwards }
{
    let holds = goes_on(outcome) && held.len() <= MOST_HELD;
    if holds || pass_on(link, held) {
        outcome
    } else {
        Err(OrNoMemory::Cause(Cause::WriteFault))
    }
}
