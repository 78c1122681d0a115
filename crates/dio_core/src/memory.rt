//! A source, a sink and a link in memory, which tell what they hold. They give and take pieces of a named size, and
//! fail at named calls.

ghost use Rattle.std.specs.Prelude.{◌≡◌, [], ◌<◌, ◌≤◌, drop, length, vec_len, IfOk, Some, not};
ghost use Rattle.std.specs.Bool.{OnTrue};
ghost use Rattle.dio_core.specs.Counts.{one_more};
ghost use Rattle.dio_core.specs.Sources.{Gives, read_failed};
ghost use Rattle.dio_core.specs.Sinks.{Takes, write_failed};
ghost use Rattle.dio_core.specs.Links.{no_sink, no_source, outgoing, incoming};
ghost use Rattle.dio_core.specs.Memory.{plan_of, fails_next, faulted, after_next, CountsIn, PassesOnFrom, HasPassedAll, Supplies, Stores, Flushes};

use crate::count::Count;
use crate::listener::End;
use crate::sink::{Sink, Took};
use crate::source::{Got, Source};
use std::alloc::{AllocError, Global};
use std::marker::Model;

/// Which calls of an object in memory are to fail, and how many have failed.
#[derive(Drop)]
pub struct FaultPlan {
    fails: Vec<u64>,
    next: Count,
    faults: Count,
}

impl Model for FaultPlan {
    ghost use Rattle.dio_core.specs.Memory.{Plan};

    ghost Value = { Plan };

    ghost view = { λ p. record { fails = p.fails.items; next = p.next; faults = p.faults } };
}

impl FaultPlan {
    /// The calls with these numbers are to fail. The first call has the number 0.
    pub fn new(alloc: Global, fails: &[u64]) -> Result<FaultPlan, AllocError>
        ensures { IfOk result (λ plan. plan ≡ plan_of fails.now) }
    {
        Ok(FaultPlan {
            fails: Vec::from_slice(alloc, fails)?,
            next: Count::new(),
            faults: Count::new(),
        })
    }

    /// No call is to fail.
    pub fn never(alloc: Global) -> FaultPlan
        ensures { result ≡ plan_of [] }
    {
        FaultPlan {
            fails: Vec::new(alloc),
            next: Count::new(),
            faults: Count::new(),
        }
    }

    /// Begins the next call. Whether it fails, which is counted.
    pub fn begin_call(&mut self) -> bool
        ensures fails { result ≡ fails_next self.old }
        ensures after { self.new ≡ after_next self.old }
    {
        let fails = self.fails.contains(&self.next.get());
        self.next.add_one();
        if fails {
            self.faults.add_one();
        }
        fails
    }

    /// Counts a fault of the call that has begun, which was not to fail.
    pub fn add_fault(&mut self)
        ensures { self.new ≡ faulted self.old }
    {
        self.faults.add_one();
    }

    /// How many calls have failed.
    pub fn faults(&self) -> u64
        ensures { result ≡ self.now.faults }
    {
        self.faults.get()
    }
}

/// A source of bytes in memory.
#[derive(Drop)]
pub struct MemSource {
    bytes: Vec<u8>,
    at: usize,
    piece: usize,
    plan: FaultPlan,
}

impl Model for MemSource {
    ghost use Rattle.std.specs.Prelude.{◌<◌, ◌≤◌, drop, length};
    ghost use Rattle.dio_core.specs.Memory.{Supply};

    ghost Value = { Supply };

    ghost view = { λ s. record { left = drop s.at s.bytes.items; piece = s.piece; plan = s.plan } };

    ghost invariant = { λ s. (s.at ≤ length s.bytes.items) × (0 < s.piece) };
}

impl MemSource {
    /// A source of these bytes. It gives at most `piece` of them in a call, and fails at the calls with the numbers
    /// in `fails`, the first call being 0.
    pub fn new(
        alloc: Global,
        bytes: &[u8],
        piece: usize,
        fails: &[u64],
    ) -> Result<MemSource, AllocError>
        requires { 0 < piece }
        ensures left { IfOk result (λ source. source.left ≡ bytes.now) }
        ensures piece { IfOk result (λ source. source.piece ≡ piece) }
        ensures plan { IfOk result (λ source. source.plan ≡ plan_of fails.now) }
    {
        Ok(MemSource {
            bytes: Vec::from_slice(alloc, bytes)?,
            at: 0,
            piece,
            plan: FaultPlan::new(alloc, fails)?,
        })
    }
}

impl Source for MemSource {
    ghost left = { λ s. Some s.left };

    ghost read_faults = { λ s. s.plan.faults };

    ghost written = { λ _. no_sink };

    fn read(&mut self, buf: &mut [u8]) -> Got
        requires { 0 < length buf.old }
        ensures gives { Gives result buf.new (Some self.old.left) (Some self.new.left) }
        ensures counted { CountsIn (read_failed result) self.old.plan self.new.plan }
        ensures exact { Supplies result buf.old buf.new self.old self.new }
    {
        if self.plan.begin_call() {
            return Got::Failed;
        }
        let rest = &self.bytes[self.at..];
        if rest.is_empty() {
            return Got::End;
        }
        let count = rest.len().min(buf.len()).min(self.piece);
        buf[..count].copy_from_slice(&rest[..count]);
        self.at += count;
        Got::Bytes(count)
    }

    fn read_faults(&self) -> u64 {
        self.plan.faults()
    }
}

/// A sink of bytes in memory. It holds back what it has taken until a flush passes it on.
#[derive(Drop)]
pub struct MemSink {
    taken: Vec<u8>,
    passed: usize,
    piece: usize,
    plan: FaultPlan,
}

impl Model for MemSink {
    ghost use Rattle.std.specs.Prelude.{◌<◌, ◌≤◌, length, take};
    ghost use Rattle.dio_core.specs.Memory.{Intake};

    ghost Value = { Intake };

    ghost view = { λ s. record { taken = s.taken.items; passed = take s.passed s.taken.items; piece = s.piece; plan = s.plan } };

    ghost invariant = { λ s. (s.passed ≤ length s.taken.items) × (0 < s.piece) };
}

impl MemSink {
    /// A sink that has taken nothing. It takes at most `piece` bytes in a call, and fails at the calls with the
    /// numbers in `fails`, the first call being 0. Writes and flushes are calls. A write that finds no memory fails
    /// too, and is counted.
    pub fn new(alloc: Global, piece: usize, fails: &[u64]) -> Result<MemSink, AllocError>
        requires { 0 < piece }
        ensures taken { IfOk result (λ sink. sink.taken ≡ []) }
        ensures passed { IfOk result (λ sink. sink.passed ≡ []) }
        ensures piece { IfOk result (λ sink. sink.piece ≡ piece) }
        ensures plan { IfOk result (λ sink. sink.plan ≡ plan_of fails.now) }
    {
        Ok(MemSink {
            taken: Vec::new(alloc),
            passed: 0,
            piece,
            plan: FaultPlan::new(alloc, fails)?,
        })
    }

    /// The bytes taken so far.
    pub fn taken(&self) -> &[u8]
        ensures { result.now ≡ self.now.taken }
    {
        self.taken.as_slice()
    }

    /// The bytes that flushes have passed on so far.
    pub fn passed(&self) -> &[u8]
        ensures { result.now ≡ self.now.passed }
    {
        &self.taken[..self.passed]
    }
}

impl Sink for MemSink {
    ghost taken = { λ s. Some s.taken };

    ghost passed = { λ s. Some s.passed };

    ghost write_faults = { λ s. s.plan.faults };

    ghost unread = { λ _. no_source };

    fn write(&mut self, bytes: &[u8]) -> Took
        requires { 0 < length bytes.now }
        ensures takes { Takes result bytes.now (Some self.old.taken) (Some self.new.taken) }
        ensures passes { PassesOnFrom self.old self.new }
        ensures counted { CountsIn (write_failed result) self.old.plan self.new.plan }
        ensures exact { Stores result bytes.now self.old self.new }
    {
        if self.plan.begin_call() {
            return Took::Failed;
        }
        let count = bytes.len().min(self.piece);
        if self.taken.extend_from_slice(&bytes[..count]).is_err() {
            self.plan.add_fault();
            return Took::Failed;
        }
        Took::Bytes(count)
    }

    fn flush(&mut self) -> bool
        ensures flushed { OnTrue result (HasPassedAll self.new) }
        ensures same { Some self.new.taken ≡ Some self.old.taken }
        ensures passes { PassesOnFrom self.old self.new }
        ensures counted { CountsIn (not result) self.old.plan self.new.plan }
        ensures exact { Flushes result self.old self.new }
    {
        if self.plan.begin_call() {
            return false;
        }
        self.passed = self.taken.len();
        true
    }

    fn write_faults(&self) -> u64 {
        self.plan.faults()
    }
}

/// A link in memory.
#[derive(Drop)]
pub struct MemLink {
    /// What the link reads.
    pub source: MemSource,
    /// What the link writes to.
    pub sink: MemSink,
}

impl MemLink {
    /// A link that gives these bytes. It gives and takes at most `piece` bytes in a call. The reads with the numbers in
    /// `read_fails` fail, and the writes and flushes with those in `write_fails`, the first call being 0.
    pub fn new(
        alloc: Global,
        bytes: &[u8],
        piece: usize,
        read_fails: &[u64],
        write_fails: &[u64],
    ) -> Result<MemLink, AllocError>
        requires { 0 < piece }
        ensures left { IfOk result (λ link. link.source.left ≡ bytes.now) }
        ensures read_piece { IfOk result (λ link. link.source.piece ≡ piece) }
        ensures read_plan { IfOk result (λ link. link.source.plan ≡ plan_of read_fails.now) }
        ensures taken { IfOk result (λ link. link.sink.taken ≡ []) }
        ensures passed { IfOk result (λ link. link.sink.passed ≡ []) }
        ensures write_piece { IfOk result (λ link. link.sink.piece ≡ piece) }
        ensures write_plan { IfOk result (λ link. link.sink.plan ≡ plan_of write_fails.now) }
    {
        Ok(MemLink {
            source: MemSource::new(alloc, bytes, piece, read_fails)?,
            sink: MemSink::new(alloc, piece, write_fails)?,
        })
    }
}

impl Source for MemLink {
    ghost left = { λ l. Some l.source.left };

    ghost read_faults = { λ l. l.source.plan.faults };

    ghost written = { λ l. outgoing (Some l.sink.taken) (Some l.sink.passed) l.sink.plan.faults };

    fn read(&mut self, buf: &mut [u8]) -> Got
        requires { 0 < length buf.old }
        ensures gives { Gives result buf.new (Some self.old.source.left) (Some self.new.source.left) }
        ensures counted { CountsIn (read_failed result) self.old.source.plan self.new.source.plan }
        ensures exact { Supplies result buf.old buf.new self.old.source self.new.source }
        ensures sink { self.new.sink ≡ self.old.sink }
    {
        self.source.read(buf)
    }

    fn read_faults(&self) -> u64 {
        self.source.read_faults()
    }
}

impl Sink for MemLink {
    ghost taken = { λ l. Some l.sink.taken };

    ghost passed = { λ l. Some l.sink.passed };

    ghost write_faults = { λ l. l.sink.plan.faults };

    ghost unread = { λ l. incoming (Some l.source.left) l.source.plan.faults };

    fn write(&mut self, bytes: &[u8]) -> Took
        requires { 0 < length bytes.now }
        ensures takes { Takes result bytes.now (Some self.old.sink.taken) (Some self.new.sink.taken) }
        ensures passes { PassesOnFrom self.old.sink self.new.sink }
        ensures counted { CountsIn (write_failed result) self.old.sink.plan self.new.sink.plan }
        ensures exact { Stores result bytes.now self.old.sink self.new.sink }
        ensures source { self.new.source ≡ self.old.source }
    {
        self.sink.write(bytes)
    }

    fn flush(&mut self) -> bool
        ensures flushed { OnTrue result (HasPassedAll self.new.sink) }
        ensures same { Some self.new.sink.taken ≡ Some self.old.sink.taken }
        ensures passes { PassesOnFrom self.old.sink self.new.sink }
        ensures counted { CountsIn (not result) self.old.sink.plan self.new.sink.plan }
        ensures exact { Flushes result self.old.sink self.new.sink }
        ensures source { self.new.source ≡ self.old.source }
    {
        self.sink.flush()
    }

    fn write_faults(&self) -> u64 {
        self.sink.write_faults()
    }
}

impl End for MemLink {
    ghost use Rattle.std.proofs.Common.{refl};

    ghost written_is = { λ x. refl };

    ghost unread_is = { λ x. refl };

    fn end(&mut self)
        ensures { self.new ≡ self.old }
    {}
}
