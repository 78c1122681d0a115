//! A listener that waits for nobody: it gives the one link that was connected.

ghost use Rattle.std.specs.Prelude.{◌≡◌, [], ◌∷◌, Some, None};
ghost use Rattle.dio_core.specs.Counts.{IsCounted, one_more};
ghost use Rattle.dio_core.specs.Listeners.{Accepts, accept_failed};

use dio_core::{Accepted, Connection, Count, Listener, TcpLink};
use std::alloc::AllocError;
use std::marker::Model;
use std::net::{Net, TcpStream};

/// Whether a link is left.
#[derive(Drop)]
enum Left<C: Connection> {
    /// This one.
    Link(TcpLink<C>),
    /// None: it was given.
    Nothing,
    /// None: who was asked for it couldn't be reached.
    Unreached,
}

/// A listener of the one link to an address. Where that couldn't be reached, each accept fails, and is counted.
#[derive(Drop)]
pub struct Connecting<C: Connection> {
    left: Left<C>,
    faults: Count,
}

impl<C: Connection> Model for Connecting<C> {
    ghost use Rattle.std.specs.Prelude.{ℕ};

    ghost Value = { ℕ };

    ghost view = { λ l. l.faults };
}

impl<C: Connection + Send + Drop> Connecting<C> {
    /// Over a connection, or where there was none.
    pub fn new(connection: Option<C>) -> Connecting<C>
        ensures { result ≡ 0 }
    {
        let left = match connection {
            Some(connection) => Left::Link(TcpLink::new(connection)),
            None => Left::Unreached,
        };
        Connecting {
            left,
            faults: Count::new(),
        }
    }

    /// Connects to this address.
    pub fn to<R: Net<Stream = C>>(net: &R, address: &str) -> Connecting<C>
        ensures { result ≡ 0 }
    {
        Connecting::new(TcpStream::connect(net, address).ok())
    }

    /// Whether a link is there to be given.
    pub fn is_connected(&self) -> bool {
        matches!(&self.left, Left::Link(_))
    }
}

impl<C: Connection + Send + Drop> Listener for Connecting<C> {
    ghost use Rattle.std.specs.Prelude.{None};

    type Link = TcpLink<C>;

    ghost links = { λ _. None };

    ghost given_back = { λ _. None };

    ghost accept_faults = { λ l. l };

    fn accept(&mut self) -> Accepted<TcpLink<C>> {
        let left = std::mem::replace(&mut self.left, Left::Nothing);
        match left {
            Left::Link(link) => Accepted::Link(link),
            Left::Nothing => Accepted::NoMore,
            Left::Unreached => {
                self.left = Left::Unreached;
                self.faults.add_one();
                Accepted::Failed
            }
        }
    }

    fn give_back(&mut self, _link: TcpLink<C>, _status: u8) -> Result<(), AllocError> {
        Ok(())
    }

    fn accept_faults(&self) -> u64 {
        self.faults.get()
    }
}
