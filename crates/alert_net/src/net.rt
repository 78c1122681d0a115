//! The network itself.

ghost use Rattle.std.specs.Prelude.{◌≤◌, length, IfOk};

use crate::listener::AlertListener;
use crate::stream::AlertStream;
use std::io;
use std::net::{Net, SocketAddr};

/// A network over another one: what it binds and connects looks for bytes before it waits for them.
#[derive(Drop)]
pub struct AlertNet<'n, N: Net> {
    net: &'n N,
}

impl<'n, N: Net> AlertNet<'n, N> {
    /// Over this network.
    pub fn over(net: &'n N) -> AlertNet<'n, N> {
        AlertNet { net }
    }
}

impl<N: Net> Net for AlertNet<'_, N> {
    type Stream = AlertStream<N::Stream>;

    type Listener = AlertListener<N::Listener>;

    fn bind(&self, address: SocketAddr) -> io::Result<AlertListener<N::Listener>> {
        let listener = self.net.bind(address)?;
        Ok(AlertListener { listener })
    }

    fn connect(&self, address: SocketAddr) -> io::Result<AlertStream<N::Stream>> {
        let stream = self.net.connect(address)?;
        Ok(AlertStream { stream })
    }

    fn lookup_host(&self, host: &str, port: u16, found: &mut [SocketAddr]) -> io::Result<usize>
        ensures in_bounds { IfOk result (λ n. n ≤ length found.new) }
    {
        self.net.lookup_host(host, port, found)
    }
}
