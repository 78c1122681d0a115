//! A link whose end is counted, and the commits that its replies tell.

ghost use Rattle.std.specs.Prelude.{◌≡◌};

use crate::counts::Counts;
use crate::replies::Reading;
use dio_core::{End, Got, Sink, Source, Took};
use std::alloc::Global;
use std::marker::Model;
use std::sync::Arc;

/// A link over another one, which counts. Contracts see the link below, since all that is told is told by it.
#[derive(Drop)]
pub struct CountedLink<K: End> {
    link: K,
    counts: Option<Arc<Counts, Global>>,
    reading: Reading,
}

impl<K: End> Model for CountedLink<K> {
    ghost Value = { K };

    ghost view = { λ l. l.link };
}

impl<K: End> CountedLink<K> {
    /// A link over this one, which begins a session. Without counts it counts nothing.
    pub fn new(link: K, counts: Option<Arc<Counts, Global>>) -> CountedLink<K>
        ensures { result ≡ link }
    {
        if let Some(counts) = &counts {
            counts.begin_session();
        }
        CountedLink {
            link,
            counts,
            reading: Reading::new(),
        }
    }

    /// The link below. The session has ended.
    pub fn into_inner(self) -> K
        ensures { result ≡ self }
    {
        if let Some(counts) = &self.counts {
            counts.end_session();
        }
        self.link
    }

    /// Counts the end of the session, once.
    fn count_end(&mut self)
        ensures { self.new ≡ self.old }
    {
        if let Some(counts) = self.counts.take() {
            counts.end_session();
        }
    }

    /// Counts the commits that these bytes of replies tell.
    fn count_commits(&mut self, bytes: &[u8])
        ensures { self.new ≡ self.old }
    {
        let known = self.reading.commits();
        self.reading = self.reading.behind(bytes);
        let commits = self.reading.commits();
        if known < commits {
            if let Some(counts) = &self.counts {
                counts.raise_commits(commits);
            }
        }
    }
}

impl<K: End> Source for CountedLink<K> {
    ghost left = { λ l. K.left l };

    ghost read_faults = { λ l. K.read_faults l };

    ghost written = { λ l. K.written l };

    fn read(&mut self, buf: &mut [u8]) -> Got {
        self.link.read(buf)
    }

    fn read_through(&mut self, last: u8, buf: &mut [u8]) -> Got {
        self.link.read_through(last, buf)
    }

    fn sees(&self, last: u8) -> bool {
        self.link.sees(last)
    }

    fn read_faults(&self) -> u64 {
        self.link.read_faults()
    }
}

impl<K: End> Sink for CountedLink<K> {
    ghost taken = { λ l. K.taken l };

    ghost passed = { λ l. K.passed l };

    ghost write_faults = { λ l. K.write_faults l };

    ghost unread = { λ l. K.unread l };

    /// Of the bytes those are looked at that were taken.
    fn write(&mut self, bytes: &[u8]) -> Took {
        let took = self.link.write(bytes);
        if let Took::Bytes(count) = took {
            self.count_commits(&bytes[..count]);
        }
        took
    }

    fn flush(&mut self) -> bool {
        self.link.flush()
    }

    fn write_faults(&self) -> u64 {
        self.link.write_faults()
    }
}

impl<K: End> End for CountedLink<K> {
    ghost written_is = { λ x. K.written_is x };

    ghost unread_is = { λ x. K.unread_is x };

    ghost ended = { λ x. K.ended x };

    /// Ends the link below, and with it the session.
    fn end(&mut self) {
        self.link.end();
        self.count_end();
    }

    fn line_ahead(&mut self, buf: &mut [u8]) -> Option<usize> {
        self.link.line_ahead(buf)
    }
}
