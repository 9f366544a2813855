//! One end of a connection: its socket, with a limit on the time of all reads, or of all writes.
ghost use Rattle.std.specs.Prelude.{length};
ghost use Rattle.std.specs.Io.{ReadsAtMost, WritesAtMost};

use crate::limit::{Limit, most_time};
use crate::network::{Door, Pace};
use crate::socket::Socket;
use std::io;
use std::io::{Read as _, Write as _};
use std::net::Net;
use std::os::unix::net::UnixStream;
use std::time::{Clock, Duration};

/// How many bytes one write has at most. The system waits anew for each part of a longer one.
const WRITE_MOST: usize = 32768;

/// One end of a connection.
#[derive(Drop)]
pub struct Stream<'a, H: Net> {
    host: &'a H,
    socket: Socket<H>,
    limit: Option<Limit>,
    pace: Pace,
}

impl<'a, H: Clock + Net> Stream<'a, H> {
    /// The ends of a connection that was accepted: what is read, by this limit, and what is written. An order's has
    /// a limit or isn't served.
    pub(crate) fn accepted(
        host: &'a H,
        socket: Socket<H>,
        reading: Limit,
    ) -> io::Result<(Stream<'a, H>, Stream<'a, H>)> {
        let writing = Limit::new(most_time(socket.door()));
        if socket.door() == Door::Orders && !reading.is_begun() {
            return Err(io::Error::from(io::ErrorKind::Other));
        }
        let other = socket.try_clone()?;
        Ok((
            Stream::new(host, socket, Some(reading)),
            Stream::new(host, other, Some(writing)),
        ))
    }

    /// The ends of a connection to a service. It has no limit: the service answers as soon as it has served what
    /// came before.
    pub(crate) fn called(
        host: &'a H,
        stream: UnixStream,
    ) -> io::Result<(Stream<'a, H>, Stream<'a, H>)> {
        let socket = Socket::Order(stream);
        let other = socket.try_clone()?;
        Ok((
            Stream::new(host, socket, None),
            Stream::new(host, other, None),
        ))
    }

    fn new(host: &'a H, socket: Socket<H>, limit: Option<Limit>) -> Stream<'a, H> {
        Stream {
            host,
            socket,
            limit,
            pace: Pace::InTime,
        }
    }

    /// Where the connection came.
    pub(crate) fn door(&self) -> Door {
        self.socket.door()
    }

    /// Whether a read or a write failed as its limit was over.
    pub(crate) fn is_late(&self) -> bool {
        self.pace == Pace::Late
    }

    /// Lets the reads, or the writes, that come take this time together.
    pub(crate) fn set_limit(&mut self, length: Duration) {
        self.limit = Some(Limit::new(length));
    }

    pub(crate) fn shutdown_write(&self) -> io::Result<()> {
        self.socket.shutdown_write()
    }

    // What is left of the limit, if there is one. It is an error if nothing is: the system takes a time of 0 for
    // no limit.
    fn time_left(&mut self) -> io::Result<Option<Duration>> {
        let Some(limit) = &mut self.limit else {
            return Ok(None);
        };
        let left = limit.left(self.host);
        if left.is_zero() {
            return Err(io::Error::from(io::ErrorKind::TimedOut));
        }
        Ok(Some(left))
    }

    fn read_in_time(&mut self, buf: &mut [u8]) -> io::Result<usize>
        ensures { ReadsAtMost result buf.new }
    {
        let left = self.time_left()?;
        self.socket.set_read_timeout(left)?;
        self.socket.read(buf)
    }

    fn write_in_time(&mut self, buf: &[u8]) -> io::Result<usize>
        ensures { WritesAtMost result buf.now }
    {
        let left = self.time_left()?;
        self.socket.set_write_timeout(left)?;
        self.socket.write(&buf[..buf.len().min(WRITE_MOST)])
    }

    // Notes whether a limit was over. The system tells that as a socket that would wait.
    fn note(&mut self, kind: io::ErrorKind) {
        if matches!(kind, io::ErrorKind::TimedOut | io::ErrorKind::WouldBlock) {
            self.pace = Pace::Late;
        }
    }
}

impl<'a, H: Clock + Net> io::Read for Stream<'a, H> {
    fn read(&mut self, buf: &mut [u8]) -> io::Result<usize> {
        let read = self.read_in_time(buf);
        if let Err(error) = &read {
            self.note(error.kind());
        }
        read
    }
}

impl<'a, H: Clock + Net> io::Write for Stream<'a, H> {
    fn write(&mut self, buf: &[u8]) -> io::Result<usize> {
        let written = self.write_in_time(buf);
        if let Err(error) = &written {
            self.note(error.kind());
        }
        written
    }

    fn flush(&mut self) -> io::Result<()> {
        self.socket.flush()
    }
}
