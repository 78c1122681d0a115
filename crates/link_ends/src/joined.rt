//! A source and a sink as the two sides of one link.

ghost use Rattle.std.specs.Prelude.{◌≡◌};

use crate::naming::Naming;
use dio_core::{End, Got, Sink, Source, Took};
use std::marker::{Model, PhantomData};

/// A source and a sink, joined. Contracts see the two: each side tells what it told alone.
#[derive(Drop)]
pub struct Joined<'a, 'b, S: Source, W: Sink, N: Naming> {
    source: &'a mut S,
    sink: &'b mut W,
    of: PhantomData<N>,
}

impl<'a, 'b, S: Source, W: Sink, N: Naming> Model for Joined<'a, 'b, S, W, N> {
    ghost use Rattle.std.specs.Prelude.{◌≡◌};
    ghost use Rattle.std.specs.Coded.{codes};

    ghost Value = { S × W };

    ghost coded = { Prim.hlevel codes };

    ghost view = { λ j. (j.source.now, j.sink.now) };

    ghost invariant = { λ j. (j.source.ghost_name ≡ N.source) × (j.sink.ghost_name ≡ N.sink) };
}

impl<'a, 'b, S: Source, W: Sink, N: Naming> Joined<'a, 'b, S, W, N> {
    /// These two, joined.
    pub fn new(source: &'a mut S, sink: &'b mut W) -> Joined<'a, 'b, S, W, N>
        requires source { source.ghost_name ≡ N.source }
        requires sink { sink.ghost_name ≡ N.sink }
        ensures { result ≡ (source.old, sink.old) }
    {
        Joined {
            source,
            sink,
            of: PhantomData,
        }
    }

    /// Gives the two back.
    pub fn release(self) -> (&'a mut S, &'b mut W)
        ensures same_source { result.0.ghost_name ≡ N.source }
        ensures same_sink { result.1.ghost_name ≡ N.sink }
        ensures source { result.0.now ≡ self.entry.0 }
        ensures sink { result.1.now ≡ self.entry.1 }
    {
        let Joined { source, sink, .. } = self;
        (source, sink)
    }
}

impl<S: Source, W: Sink, N: Naming> Source for Joined<'_, '_, S, W, N> {
    ghost use Rattle.dio_core.specs.Links.{outgoing};

    ghost left = { λ j. S.left j.0 };

    ghost read_faults = { λ j. S.read_faults j.0 };

    ghost written = { λ j. outgoing (W.taken j.1) (W.passed j.1) (W.write_faults j.1) };

    fn read(&mut self, buf: &mut [u8]) -> Got {
        self.source.read(buf)
    }

    fn read_through(&mut self, last: u8, buf: &mut [u8]) -> Got {
        self.source.read_through(last, buf)
    }

    fn sees(&self, last: u8) -> bool {
        self.source.sees(last)
    }

    fn read_faults(&self) -> u64 {
        self.source.read_faults()
    }
}

impl<S: Source, W: Sink, N: Naming> Sink for Joined<'_, '_, S, W, N> {
    ghost use Rattle.dio_core.specs.Links.{incoming};

    ghost taken = { λ j. W.taken j.1 };

    ghost passed = { λ j. W.passed j.1 };

    ghost write_faults = { λ j. W.write_faults j.1 };

    ghost unread = { λ j. incoming (S.left j.0) (S.read_faults j.0) };

    fn write(&mut self, bytes: &[u8]) -> Took {
        self.sink.write(bytes)
    }

    fn flush(&mut self) -> bool {
        self.sink.flush()
    }

    fn write_faults(&self) -> u64 {
        self.sink.write_faults()
    }
}

impl<S: Source, W: Sink, N: Naming> End for Joined<'_, '_, S, W, N> {
    ghost use Rattle.std.proofs.Common.{refl};

    ghost written_is = { λ x. refl };

    ghost unread_is = { λ x. refl };

    /// Neither is closed: both belong to the caller.
    fn end(&mut self)
        ensures { self.new ≡ self.old }
    {}
}
