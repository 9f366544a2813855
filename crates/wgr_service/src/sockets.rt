//! The system's sockets and its clock.
ghost use Rattle.std.specs.Prelude.{◌≡◌, ◌/◌, ◌<◌, ◌≤◌, false, None, IfErr, IfOk, IfSome};
ghost use Rattle.std.specs.Time.{system_time_nanos};
ghost use Rattle.wgr_service.specs.Sockets.{came_to};
ghost use Rattle.wgr_service.specs.declared.network.Door.TheVariants as door;
ghost use Rattle.wgr_service.specs.declared.network.Pace.TheVariants as pace;

use crate::doors::{OrderDoor, RequestDoor};
use crate::limit::{Limit, most_time};
use crate::network::{Arrival, Door, Missed, Network, Pace};
use crate::silent::Waiting;
use crate::socket::Socket;
use crate::stream::Stream;
use std::alloc::Global;
use std::fs::Files;
use std::net::{IpAddr, Net};
use std::os::unix::net::UnixStream;
use std::time::{Clock, Duration, SystemTime, UNIX_EPOCH};
use std::{io, thread};
use wgr_io::{Device, DeviceError, Read};

/// How long what a client still sends after its reply is read and dropped, and how long each read waits for it.
const REST_MILLIS: u64 = 1000;

const PATIENCE_MILLIS: u64 = 250;

/// How many such reads are made at most.
const REST_READS: usize = 128;

/// How many bytes each of them reads at most.
const REST_CHUNK: usize = 65536;

/// How often accepting is tried before a connection counts as missed, and how long the pause after each try
/// is. So a service without file descriptors misses one connection in five seconds.
const ACCEPTS: usize = 50;

const PAUSE_MILLIS: u64 = 100;

/// The sockets of a host, and its clock.
#[derive(Drop)]
pub struct Sockets<'a, H: Net> {
    alloc: Global,
    host: &'a H,
    requests: Option<RequestDoor<H>>,
    orders: Option<OrderDoor>,
    orders_left: u64,
}

impl<'a, H: Clock + Net> Sockets<'a, H> {
    /// Sockets that don't listen yet. Their log is unknown, so no clause can say more.
    pub fn new(alloc: Global, host: &'a H) -> Sockets<'a, H> {
        Sockets {
            alloc,
            host,
            requests: None,
            orders: None,
            orders_left: u64::MAX,
        }
    }

    // Waits for the next connection, and says at which listener none could be accepted. Orders that wait come first.
    fn accept(&mut self) -> Result<(Socket<H>, Limit), Missed>
        ensures fewer { IfOk result (λ it. came_to it.0 ≡ door.Orders → self.new.orders_left < self.old.orders_left) }
        ensures fewer_missed { IfErr result (λ it. it.door ≡ door.Orders → self.new.orders_left < self.old.orders_left) }
        ensures no_more { self.new.orders_left ≤ self.old.orders_left }
    {
        for _ in 0..u64::MAX {
            match self.waiting_order() {
                Ok(Some(stream)) => {
                    let limit = Limit::begun(most_time(Door::Orders), self.host);
                    return Ok((Socket::Order(stream), limit));
                }
                Ok(None) => {}
                Err(_) => return Err(Missed { door: Door::Orders }),
            }
            match self.waiting_request() {
                Ok(Some(one)) => {
                    return Ok((Socket::Request(one.stream), one.limit));
                }
                Ok(None) => {}
                Err(_) => return Err(Missed {
                    door: Door::Requests,
                }),
            }
            if self.sleep().is_err() {
                break;
            }
        }
        Err(Missed {
            door: Door::Requests,
        })
    }

    // The next order's connection, if one waits.
    fn waiting_order(&mut self) -> io::Result<Option<UnixStream>>
        ensures fewer { IfOk result (λ found. IfSome found (λ _. self.new.orders_left < self.old.orders_left)) }
        ensures fewer_missed { IfErr result (λ _. self.new.orders_left < self.old.orders_left) }
        ensures no_more { self.new.orders_left ≤ self.old.orders_left }
    {
        let Some(door) = &mut self.orders else {
            return Ok(None);
        };
        if self.orders_left == 0 {
            return Ok(None);
        }
        let found = door.accept();
        if !matches!(found, Ok(None)) {
            self.orders_left -= 1;
        }
        found
    }

    // The next request's connection to be served, if one waits.
    fn waiting_request(&mut self) -> io::Result<Option<Waiting<H>>>
        ensures { self.new.orders_left ≡ self.old.orders_left }
    {
        match &mut self.requests {
            Some(door) => door.accept(self.host),
            None => Err(io::Error::from(io::ErrorKind::NotConnected)),
        }
    }

    // Waits until there may be a connection to be served.
    fn sleep(&mut self) -> io::Result<()>
        ensures { self.new.orders_left ≡ self.old.orders_left }
    {
        match &mut self.requests {
            Some(door) => door.sleep(self.host),
            None => Ok(()),
        }
    }
}

impl<'a, H: Clock + Files + Net> Network for Sockets<'a, H> {
    ghost use Rattle.std.specs.Prelude.{ℕ};

    type Reader = Device<Stream<'a, H>>;

    type Writer = Device<Stream<'a, H>>;

    ghost log = { λ _. None };

    ghost orders = { λ s. s.orders_left };

    fn listen(&mut self, address: IpAddr, port: u16) -> Result<(), DeviceError> {
        match RequestDoor::open(self.alloc, self.host, address, port) {
            Ok(door) => {
                self.orders = None;
                self.requests = Some(door);
                Ok(())
            }
            Err(_) => Err(DeviceError),
        }
    }

    fn listen_orders(&mut self, path: &str) -> Result<(), DeviceError> {
        let Some(requests) = &self.requests else {
            return Err(DeviceError);
        };
        match OrderDoor::open(self.alloc, self.host, requests, path) {
            Ok(door) => {
                self.orders = Some(door);
                Ok(())
            }
            Err(_) => Err(DeviceError),
        }
    }

    fn next(&mut self) -> Result<Arrival<Device<Stream<'a, H>>, Device<Stream<'a, H>>>, Missed> {
        let mut missed = Missed {
            door: Door::Requests,
        };
        for _ in 0..ACCEPTS {
            match self.accept() {
                Ok((socket, limit)) => return arrival(self.host, socket, limit),
                Err(why) => {
                    missed = why;
                    thread::sleep(self.host, Duration::from_millis(PAUSE_MILLIS));
                }
            }
        }
        Err(missed)
    }

    fn call(
        &mut self,
        path: &str,
    ) -> Result<(Device<Stream<'a, H>>, Device<Stream<'a, H>>), DeviceError> {
        let Ok(stream) = UnixStream::connect(self.host, path) else {
            return Err(DeviceError);
        };
        match Stream::called(self.host, stream) {
            Ok((reader, writer)) => Ok((Device::new(reader), Device::new(writer))),
            Err(_) => Err(DeviceError),
        }
    }

    fn end(&mut self, reader: Device<Stream<'a, H>>, writer: Device<Stream<'a, H>>) -> Pace {
        let pace = pace_of(&reader, &writer);
        if pace == Pace::InTime && writer.inner.shutdown_write().is_ok() {
            read_rest(self.host, reader);
        }
        pace
    }
}

// The connection of this socket, if it has both its ends.
fn arrival<'a, H: Clock + Net>(
    host: &'a H,
    socket: Socket<H>,
    limit: Limit,
) -> Result<Arrival<Device<Stream<'a, H>>, Device<Stream<'a, H>>>, Missed>
    ensures ok { IfOk result (λ it. (it.door ≡ came_to socket) × (it.reader.failed ≡ false) × (it.writer.failed ≡ false)) }
    ensures missed { IfErr result (λ it. it.door ≡ came_to socket) }
{
    let door = socket.door();
    match Stream::accepted(host, socket, limit) {
        Ok((reader, writer)) => Ok(Arrival {
            door,
            reader: Device::new(reader),
            writer: Device::new(writer),
            clock: seconds_now(host),
        }),
        Err(_) => Err(Missed { door }),
    }
}

// Whether a read or a write failed as its limit was over.
fn pace_of<'a, H: Clock + Net>(
    reader: &Device<Stream<'a, H>>,
    writer: &Device<Stream<'a, H>>,
) -> Pace
    ensures in_time { reader.now.failed ≡ false → writer.now.failed ≡ false → result ≡ pace.InTime }
{
    if (reader.failed && reader.inner.is_late()) || (writer.failed && writer.inner.is_late()) {
        Pace::Late
    } else {
        Pace::InTime
    }
}

/// The clock's time, in whole seconds since 1970-01-01 00:00 UTC, where it can be read.
pub fn seconds_now<C: Clock>(clock: &C) -> Option<u64> {
    seconds_of(SystemTime::now(clock).ok()?)
}

// The whole seconds from 1970-01-01 to this time, if it isn't before.
fn seconds_of(time: SystemTime) -> Option<u64>
    ensures { IfSome result (λ seconds. seconds ≡ system_time_nanos time / 1_000_000_000) }
{
    let since = time.duration_since(UNIX_EPOCH).ok()?;
    Some(since.as_secs())
}

// Reads what a tenant's client still sends: the system resets a connection that is closed with bytes
// unread, and the client may then lose its reply. A Unix socket keeps what was written to it.
fn read_rest<'a, H: Clock + Net>(host: &'a H, mut rest: Device<Stream<'a, H>>) {
    if rest.inner.door() == Door::Orders {
        return;
    }
    let mut limit = Limit::begun(Duration::from_millis(REST_MILLIS), host);
    let patience = Duration::from_millis(PATIENCE_MILLIS);
    let mut chunk = [0; REST_CHUNK];
    for _ in 0..REST_READS {
        rest.inner.set_limit(limit.left(host).min(patience));
        match rest.read(&mut chunk) {
            Ok(0) | Err(_) => return,
            Ok(_) => {}
        }
    }
}
