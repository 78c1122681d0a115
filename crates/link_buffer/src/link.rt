//! A link that reads ahead.

ghost use Rattle.std.specs.Prelude.{◌≡◌, ◌<◌, ◌≤◌, [], length, take, drop, not, IfSome, IsTrue};
ghost use Rattle.std.specs.Bool.{OnTrue};
ghost use Rattle.dio_core.specs.Counts.{IsCountedBy};
ghost use Rattle.dio_core.specs.Sources.{Gives, read_failed};
ghost use Rattle.dio_core.specs.Sinks.{Takes, write_failed, IsPassedOn};
ghost use Rattle.dio_core.specs.Lines.{IsLineAhead};
ghost use Rattle.dio_core.specs.Links.{incoming};
ghost use Rattle.dio_core.specs.declared.source.Got.TheVariants.{Bytes};
ghost use Rattle.link_buffer.specs.Ahead.{left_of, Fills, GivesHeld, PassesOnBelow, EndsInNewline};

use dio_core::{End, Got, NEWLINE, Sink, Source, Took, copy_through};
use std::marker::Model;

/// How many bytes a [`BufferedLink`] asks of the link below at once.
pub const READ_AHEAD: usize = 4096;

/// A link over another one, which reads ahead: what it holds is given before the link below is asked again.
#[derive(Drop)]
pub struct BufferedLink<K: End> {
    link: K,
    ahead: [u8; READ_AHEAD],
    given: usize,
    filled: usize,
}

impl<K: End> Model for BufferedLink<K> {
    ghost use Rattle.std.specs.Prelude.{◌≤◌, drop, take};
    ghost use Rattle.link_buffer.specs.Ahead.{Ahead};
    ghost use Rattle.link_buffer.specs.declared.link.TheConstants.{READ_AHEAD};

    ghost Value = { Ahead K };

    ghost view = { λ l. record { held = drop l.given (take l.filled l.ahead); link = l.link } };

    ghost invariant = { λ l. (l.given ≤ l.filled) × (l.filled ≤ READ_AHEAD) };
}

impl<K: End> BufferedLink<K> {
    /// A link over this one, which has read nothing ahead.
    pub fn new(link: K) -> BufferedLink<K>
        ensures held { result.held ≡ [] }
        ensures link { result.link ≡ link }
    {
        BufferedLink {
            link,
            ahead: [0; READ_AHEAD],
            given: 0,
            filled: 0,
        }
    }

    /// The bytes that were read ahead and not given yet.
    pub fn held(&self) -> &[u8]
        ensures { result.now ≡ self.now.held }
    {
        &self.ahead[self.given..self.filled]
    }

    /// The link below. What was read ahead of it and not given is gone.
    pub fn into_inner(self) -> K
        ensures { result ≡ self.link }
    {
        self.link
    }

    /// Reads ahead, where nothing is held.
    fn fill(&mut self) -> Got
        requires { self.old.held ≡ [] }
        ensures fills { Fills result self.new.held (K.left self.old.link) (K.left self.new.link) }
        ensures written { K.written self.new.link ≡ K.written self.old.link }
        ensures counted { IsCountedBy K.read_faults (read_failed result) self.old.link self.new.link }
    {
        let got = self.link.read(&mut self.ahead);
        self.given = 0;
        self.filled = match got {
            Got::Bytes(count) => count,
            _ => 0,
        };
        got
    }

    /// Gives as much of what is held as fits, and says how much.
    fn give(&mut self, buf: &mut [u8]) -> usize
        ensures { GivesHeld (Bytes result) buf.old buf.new self.old self.new }
    {
        let held = self.held();
        let count = held.len().min(buf.len());
        buf[..count].copy_from_slice(&held[..count]);
        self.skip(count);
        count
    }

    /// Takes the first of what is held as given.
    fn skip(&mut self, count: usize)
        requires { count ≤ length self.old.held }
        ensures held { self.new.held ≡ drop count self.old.held }
        ensures link { self.new.link ≡ self.old.link }
    {
        self.given += count;
    }
}

impl<K: End> Source for BufferedLink<K> {
    ghost left = { λ l. left_of K.left l };

    ghost read_faults = { λ l. K.read_faults l.link };

    ghost written = { λ l. K.written l.link };

    /// Reads the next of the bytes left. The link below is asked only where nothing is held.
    fn read(&mut self, buf: &mut [u8]) -> Got
        requires { 0 < length buf.old }
        ensures gives { Gives result buf.new (left_of K.left self.old) (left_of K.left self.new) }
        ensures written { K.written self.new.link ≡ K.written self.old.link }
        ensures counted { IsCountedBy K.read_faults (read_failed result) self.old.link self.new.link }

        // What is held is given, also where the link below doesn't tell.
        ensures held { 0 < length self.old.held → GivesHeld result buf.old buf.new self.old self.new }
    {
        if self.held().is_empty() {
            match self.fill() {
                Got::Bytes(_) => {}
                nothing => return nothing,
            }
        }
        Got::Bytes(self.give(buf))
    }

    fn read_through(&mut self, last: u8, buf: &mut [u8]) -> Got {
        let held = self.held();
        if held.is_empty() {
            return self.read(&mut buf[..1]);
        }
        let count = copy_through(last, held, buf);
        self.skip(count);
        Got::Bytes(count)
    }

    fn read_faults(&self) -> u64 {
        self.link.read_faults()
    }
}

impl<K: End> Sink for BufferedLink<K> {
    ghost taken = { λ l. K.taken l.link };

    ghost passed = { λ l. K.passed l.link };

    ghost write_faults = { λ l. K.write_faults l.link };

    ghost unread = { λ l. incoming (left_of K.left l) (K.read_faults l.link) };

    fn write(&mut self, bytes: &[u8]) -> Took
        requires { 0 < length bytes.now }
        ensures takes { Takes result bytes.now (K.taken self.old.link) (K.taken self.new.link) }
        ensures passes { PassesOnBelow K.taken K.passed self.old.link self.new.link }
        ensures unread { K.unread self.new.link ≡ K.unread self.old.link }
        ensures held { self.new.held ≡ self.old.held }
        ensures counted { IsCountedBy K.write_faults (write_failed result) self.old.link self.new.link }
    {
        self.link.write(bytes)
    }

    fn flush(&mut self) -> bool
        ensures flushed { OnTrue result (IsPassedOn (K.taken self.new.link) (K.passed self.new.link)) }
        ensures same { K.taken self.new.link ≡ K.taken self.old.link }
        ensures passes { PassesOnBelow K.taken K.passed self.old.link self.new.link }
        ensures unread { K.unread self.new.link ≡ K.unread self.old.link }
        ensures held { self.new.held ≡ self.old.held }
        ensures counted { IsCountedBy K.write_faults (not result) self.old.link self.new.link }
    {
        self.link.flush()
    }

    fn write_faults(&self) -> u64 {
        self.link.write_faults()
    }
}

impl<K: End> End for BufferedLink<K> {
    ghost use Rattle.std.proofs.Common.{refl};

    ghost written_is = { λ x. K.written_is x.link };

    ghost unread_is = { λ x. refl };

    ghost ended = { λ l. K.ended l.link };

    /// Closes the link below. What is held may still be read.
    fn end(&mut self)
        ensures ended { IfSome (K.ended self.new.link) IsTrue }
        ensures held { self.new.held ≡ self.old.held }
        ensures left { K.left self.new.link ≡ K.left self.old.link }
        ensures taken { K.taken self.new.link ≡ K.taken self.old.link }
        ensures passed { K.passed self.new.link ≡ K.passed self.old.link }
        ensures read_faults { K.read_faults self.new.link ≡ K.read_faults self.old.link }
        ensures write_faults { K.write_faults self.new.link ≡ K.write_faults self.old.link }
    {
        self.link.end();
    }

    /// Takes the next line, if it is held with its newline.
    fn line_ahead(&mut self, buf: &mut [u8]) -> Option<usize>
        ensures line { IsLineAhead result buf.new (left_of K.left self.old) (left_of K.left self.new) }
        ensures link { self.new.link ≡ self.old.link }
    {
        let held = self.held();
        let count = copy_through(NEWLINE, held, buf);
        match length_before_newline(&buf[..count]) {
            Some(length) => {
                self.skip(count);
                Some(length)
            }
            None => None,
        }
    }
}

/// How many bytes these are before the newline that they end in. None where they don't end in one.
fn length_before_newline(bytes: &[u8]) -> Option<usize>
    ensures { IfSome result (EndsInNewline bytes.now) }
{
    match bytes.split_last() {
        Some((&NEWLINE, line)) => Some(line.len()),
        _ => None,
    }
}
