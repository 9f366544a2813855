//! The socket of a connection, of either kind.
ghost use Rattle.std.specs.Prelude.{◌≡◌};
ghost use Rattle.wgr_service.specs.Sockets.{came_to};

use crate::network::Door;
use std::io;
use std::net::{Net, OpenStream, Shutdown};
use std::os::unix::net::UnixStream;
use std::time::Duration;

/// The socket of a connection.
#[derive(Drop)]
pub(crate) enum Socket<H: Net> {
    /// Of a tenant's request.
    Request(H::Stream),
    /// Of an operator's order.
    Order(UnixStream),
}

impl<H: Net> Socket<H> {
    /// Where the connection came. The two are different types, so a connection of the address is never the operator's.
    pub(crate) fn door(&self) -> Door
        ensures { result ≡ came_to self.now }
    {
        match self {
            Socket::Request(_) => Door::Requests,
            Socket::Order(_) => Door::Orders,
        }
    }

    /// A second handle to the same socket.
    pub(crate) fn try_clone(&self) -> io::Result<Socket<H>> {
        match self {
            Socket::Request(stream) => Ok(Socket::Request(stream.try_clone()?)),
            Socket::Order(stream) => Ok(Socket::Order(stream.try_clone()?)),
        }
    }

    pub(crate) fn set_read_timeout(&self, most: Option<Duration>) -> io::Result<()> {
        match self {
            Socket::Request(stream) => stream.set_read_timeout(most),
            Socket::Order(stream) => stream.set_read_timeout(most),
        }
    }

    pub(crate) fn set_write_timeout(&self, most: Option<Duration>) -> io::Result<()> {
        match self {
            Socket::Request(stream) => stream.set_write_timeout(most),
            Socket::Order(stream) => stream.set_write_timeout(most),
        }
    }

    pub(crate) fn shutdown_write(&self) -> io::Result<()> {
        match self {
            Socket::Request(stream) => stream.shutdown(Shutdown::Write),
            Socket::Order(stream) => stream.shutdown(Shutdown::Write),
        }
    }
}

impl<H: Net> io::Read for Socket<H> {
    fn read(&mut self, buf: &mut [u8]) -> io::Result<usize> {
        match self {
            Socket::Request(stream) => stream.read(buf),
            Socket::Order(stream) => stream.read(buf),
        }
    }
}

impl<H: Net> io::Write for Socket<H> {
    fn write(&mut self, buf: &[u8]) -> io::Result<usize> {
        match self {
            Socket::Request(stream) => stream.write(buf),
            Socket::Order(stream) => stream.write(buf),
        }
    }

    fn flush(&mut self) -> io::Result<()> {
        match self {
            Socket::Request(stream) => stream.flush(),
            Socket::Order(stream) => stream.flush(),
        }
    }
}
