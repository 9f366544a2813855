//! A wait for whichever of several sockets has something first.
use mio::unix::SourceFd;
use mio::{Events, Interest, Poll, Token};
use std::alloc::Global;
use std::io;
use std::net::Net;
use std::os::fd::AsRawFd;
use std::time::Duration;

/// How many sockets one wait tells of. What is left is told of by the next one.
const EVENTS: usize = 64;

/// Sockets that are waited for.
#[derive(Drop)]
pub(crate) struct Watch {
    poll: Poll,
    events: Events,
}

impl Watch {
    /// No socket yet.
    pub(crate) fn new<H: Net>(alloc: Global, host: &H) -> io::Result<Watch> {
        Ok(Watch {
            poll: Poll::new(host)?,
            events: Events::with_capacity(alloc, EVENTS)?,
        })
    }

    /// Waits for this socket too, of which no read or accept waits by itself. What comes is told once, so it has to
    /// be asked until it has nothing more.
    pub(crate) fn add<S: AsRawFd>(&self, socket: &S) -> io::Result<()> {
        let fd = socket.as_raw_fd();
        self.poll
            .registry()
            .register(&mut SourceFd(&fd), Token(0), Interest::READABLE)
    }

    /// Waits for this socket no more.
    pub(crate) fn remove<S: AsRawFd>(&self, socket: &S) -> io::Result<()> {
        let fd = socket.as_raw_fd();
        self.poll.registry().deregister(&mut SourceFd(&fd))
    }

    /// Whether this socket, the only one, has something now.
    pub(crate) fn has<S: AsRawFd>(&mut self, socket: &S) -> io::Result<bool> {
        let fd = socket.as_raw_fd();
        // What is there already is told of anew.
        self.poll
            .registry()
            .reregister(&mut SourceFd(&fd), Token(0), Interest::READABLE)?;
        self.sleep(Some(Duration::ZERO))?;
        Ok(!self.events.is_empty())
    }

    /// Waits until one of the sockets has something, for this time at most.
    pub(crate) fn sleep(&mut self, most: Option<Duration>) -> io::Result<()> {
        self.poll.poll(&mut self.events, most)
    }
}
