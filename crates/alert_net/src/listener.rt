//! A listener whose connections look for bytes before their threads sleep.

use crate::stream::AlertStream;
use std::io;
use std::net::{OpenListener, SocketAddr};
use std::os::fd::{AsRawFd, RawFd};

/// A listener over another one.
#[derive(Drop)]
pub struct AlertListener<L> {
    pub(crate) listener: L,
}

impl<L: OpenListener> OpenListener for AlertListener<L> {
    type Stream = AlertStream<L::Stream>;

    fn accept(&self) -> io::Result<(AlertStream<L::Stream>, SocketAddr)> {
        let (stream, address) = self.listener.accept()?;
        Ok((AlertStream { stream }, address))
    }

    fn local_addr(&self) -> io::Result<SocketAddr> {
        self.listener.local_addr()
    }
}

impl<L: AsRawFd> AsRawFd for AlertListener<L> {
    fn as_raw_fd(&self) -> RawFd {
        self.listener.as_raw_fd()
    }
}
