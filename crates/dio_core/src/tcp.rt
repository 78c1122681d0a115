//! Links over TCP, or over any connection. They tell what the connection tells, and count each error.

ghost use Rattle.std.specs.Prelude.{◌≡◌, ◌<◌, length, true, false, not, IfSome, IsTrue};
ghost use Rattle.std.specs.Bool.{OnTrue};
ghost use Rattle.dio_core.specs.Counts.{IsCounted};
ghost use Rattle.dio_core.specs.Links.{incoming, outgoing};
ghost use Rattle.dio_core.specs.Listeners.{Accepts, accept_failed};
ghost use Rattle.dio_core.specs.Sources.{Gives, read_failed};
ghost use Rattle.dio_core.specs.Sinks.{Takes, write_failed, PassesOn, IsPassedOn};

use crate::connection::Connection;
use crate::count::Count;
use crate::listener::{Accepted, End, Listener};
use crate::sink::{Sink, Took, flush_counted, send_counted};
use crate::source::{Got, Source};
use std::alloc::AllocError;
use std::marker::Model;
use std::net::{Net, OpenListener, SocketAddr, TcpListener};
use std::snapshot::Snapshot;
use std::thread;
use std::time::{Clock, Duration};

/// How often an accept is tried, at most.
const MOST_TRIES: u32 = 600;

/// How many milliseconds lie between two of the tries: a minute by all of them.
const PAUSE_MILLIS: u64 = 100;

/// A link over a connection, until it is ended. It holds nothing back.
#[derive(Drop)]
pub struct TcpLink<C: Connection> {
    connection: Result<C, Snapshot<C>>,
    read_faults: Count,
    write_faults: Count,
}

impl<C: Connection> Model for TcpLink<C> {
    ghost use Rattle.std.specs.Prelude.{None};
    ghost use Rattle.dio_core.specs.Links.{incoming, outgoing};
    ghost use Rattle.dio_core.specs.Connections.{Linked, last_of, has_ended, ShutAtEnd};

    ghost Value = { Linked };

    ghost view = { λ l. record {
      inwards = incoming (C.coming (last_of (λ s. s.value) l.connection)) l.read_faults;
      outwards = outgoing (C.sent (last_of (λ s. s.value) l.connection)) None l.write_faults;
      passed = C.passed (last_of (λ s. s.value) l.connection);
      is_shut = C.is_shut (last_of (λ s. s.value) l.connection);
      ended = has_ended l.connection;
    } };

    ghost invariant = { λ l. ShutAtEnd (has_ended l.connection) (C.is_shut (last_of (λ s. s.value) l.connection)) };
}

impl<C: Connection> TcpLink<C> {
    ghost use Rattle.std.specs.Prelude.{◌≡◌, None, false};

    /// A link over this connection, which from now on keeps no small piece back.
    pub fn new(connection: C) -> TcpLink<C>
        ensures inwards { result.inwards ≡ incoming (C.coming connection) 0 }
        ensures outwards { result.outwards ≡ outgoing (C.sent connection) None 0 }
        ensures open { result.ended ≡ false }
    {
        connection.hurry();
        TcpLink {
            connection: Ok(connection),
            read_faults: Count::new(),
            write_faults: Count::new(),
        }
    }
}

impl<C: Connection> Source for TcpLink<C> {
    ghost left = { λ l. l.inwards.left };

    ghost read_faults = { λ l. l.inwards.faults };

    ghost written = { λ l. l.outwards };

    fn read(&mut self, buf: &mut [u8]) -> Got
        requires { 0 < length buf.old }
        ensures gives { Gives result buf.new self.old.inwards.left self.new.inwards.left }
        ensures written { self.new.outwards ≡ self.old.outwards }
        ensures counted { IsCounted (read_failed result) self.old.inwards.faults self.new.inwards.faults }
        ensures ended { OnTrue self.old.ended (result ≡ Got.Failed) }
    {
        let received = match &mut self.connection {
            Ok(connection) => connection.receive(buf).ok(),
            Err(_) => None,
        };
        match received {
            Some(0) => Got::End,
            Some(count) => Got::Bytes(count),
            None => {
                self.read_faults.add_one();
                Got::Failed
            }
        }
    }

    fn read_faults(&self) -> u64 {
        self.read_faults.get()
    }
}

impl<C: Connection> Sink for TcpLink<C> {
    ghost taken = { λ l. l.outwards.taken };

    ghost passed = { λ l. l.outwards.passed };

    ghost write_faults = { λ l. l.outwards.faults };

    ghost unread = { λ l. l.inwards };

    fn write(&mut self, bytes: &[u8]) -> Took
        requires { 0 < length bytes.now }
        ensures takes { Takes result bytes.now self.old.outwards.taken self.new.outwards.taken }
        ensures passes { PassesOn self.new.outwards.taken self.old.outwards.passed self.new.outwards.passed }
        ensures unread { self.new.inwards ≡ self.old.inwards }
        ensures counted { IsCounted (write_failed result) self.old.outwards.faults self.new.outwards.faults }
        ensures ended { OnTrue self.old.ended (result ≡ Took.Failed) }
    {
        match &mut self.connection {
            Ok(connection) => send_counted(connection, bytes, &mut self.write_faults),
            Err(_) => {
                self.write_faults.add_one();
                Took::Failed
            }
        }
    }

    /// Has the connection pass on what it keeps back.
    fn flush(&mut self) -> bool
        ensures flushed { OnTrue result (IsPassedOn self.new.outwards.taken self.new.outwards.passed) }
        ensures same { self.new.outwards.taken ≡ self.old.outwards.taken }
        ensures passes { PassesOn self.new.outwards.taken self.old.outwards.passed self.new.outwards.passed }
        ensures unread { self.new.inwards ≡ self.old.inwards }

        // The connection has passed on all, and there was one.
        ensures through { OnTrue result (IsPassedOn self.new.outwards.taken self.new.passed) }
        ensures ended { OnTrue self.old.ended (result ≡ false) }
        ensures counted { IsCounted (not result) self.old.outwards.faults self.new.outwards.faults }
    {
        match &mut self.connection {
            Ok(connection) => flush_counted(connection, &mut self.write_faults),
            Err(_) => {
                self.write_faults.add_one();
                false
            }
        }
    }

    fn write_faults(&self) -> u64 {
        self.write_faults.get()
    }
}

impl<C: Connection + Drop> End for TcpLink<C> {
    ghost use Rattle.std.proofs.Common.{refl};
    ghost use Rattle.std.specs.Prelude.{Some};

    ghost written_is = { λ x. refl };

    ghost unread_is = { λ x. refl };

    ghost ended = { λ l. Some l.ended };

    /// Ends the sending, and closes the connection once it has finished. Each read, write and flush after it is a fault.
    fn end(&mut self)
        ensures ended { self.new.ended ≡ true }
        ensures shut { IfSome self.new.is_shut IsTrue }
        ensures inwards { self.new.inwards ≡ self.old.inwards }
        ensures outwards { self.new.outwards ≡ self.old.outwards }
        ensures passed { self.new.passed ≡ self.old.passed }
    {
        if let Ok(connection) = &mut self.connection {
            connection.shut();
            connection.finish();
            self.connection = Err(Snapshot::of(connection));
        }
    }
}

/// Listens at an address, and makes links of the connections that come in. The clock is what pauses between two tries of an accept.
#[derive(Drop)]
pub struct TcpListening<L: OpenListener, T: Clock> {
    listener: Option<L>,
    clock: T,
    faults: Count,
}

impl<L: OpenListener, T: Clock> Model for TcpListening<L, T> {
    ghost use Rattle.std.specs.Prelude.{ℕ};

    ghost Value = { ℕ };

    ghost view = { λ l. l.faults };
}

impl<L: OpenListener + Drop, T: Clock + Drop> TcpListening<L, T> {
    /// Takes the connections of this listener.
    pub fn new(listener: L, clock: T) -> TcpListening<L, T>
        ensures { result ≡ 0 }
    {
        TcpListening {
            listener: Some(listener),
            clock,
            faults: Count::new(),
        }
    }

    /// Listens at this address. Where it can't be bound, each accept fails.
    pub fn bind<R: Net<Listener = L>>(net: &R, clock: T, address: &str) -> TcpListening<L, T>
        ensures { result ≡ 0 }
    {
        TcpListening {
            listener: TcpListener::bind(net, address).ok(),
            clock,
            faults: Count::new(),
        }
    }

    /// The address that is listened at, where there is one.
    pub fn address(&self) -> Option<SocketAddr> {
        self.listener.as_ref()?.local_addr().ok()
    }
}

/// The next connection of a listener. An accept may fail in passing, as for a connection that was reset before it was taken, or
/// for want of a file: it is tried again, behind a pause, so many times at most. None is a fault that has stayed.
fn next_connection<L: OpenListener, T: Clock>(listener: &L, clock: &T) -> Option<L::Stream> {
    for _ in 0..MOST_TRIES {
        if let Ok((connection, _)) = listener.accept() {
            return Some(connection);
        }
        thread::sleep(clock, Duration::from_millis(PAUSE_MILLIS));
    }
    None
}

impl<C: Connection + Send + Drop, L: OpenListener<Stream = C> + Drop, T: Clock + Drop> Listener
    for TcpListening<L, T> {
    ghost use Rattle.std.specs.Prelude.{None};

    type Link = TcpLink<C>;

    ghost links = { λ _. None };

    ghost given_back = { λ _. None };

    ghost accept_faults = { λ l. l };

    /// Takes the next link. Others may come at any time, so there are never no more of them.
    fn accept(&mut self) -> Accepted<TcpLink<C>>
        ensures accepts { Accepts result None None }
        ensures counted { IsCounted (accept_failed result) self.old self.new }
        ensures more { result ≡ Accepted.NoMore → ⊥ }
    {
        let connection = match &self.listener {
            Some(listener) => next_connection(listener, &self.clock),
            None => None,
        };
        match connection {
            Some(connection) => Accepted::Link(TcpLink::new(connection)),
            None => {
                self.faults.add_one();
                Accepted::Failed
            }
        }
    }

    fn give_back(&mut self, _link: TcpLink<C>, _status: u8) -> Result<(), AllocError> {
        Ok(())
    }

    fn accept_faults(&self) -> u64 {
        self.faults.get()
    }

    /// Lets go of the address: who asks for a link there is refused at once.
    fn close(&mut self)
        ensures { self.new ≡ self.old }
    {
        self.listener = None;
    }
}
