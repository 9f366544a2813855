//! The network as a server sees it: incoming connections, and the clock read for each.
ghost use Rattle.std.specs.Prelude.{◌≡◌, ◌<◌, ◌≤◌, ℕ, [], ◌∷◌, false, IfErr, IfOk, OnErr, OnOk};
ghost use Rattle.wgr_service.specs.Network.{Log, Logs, bound, bound_orders, called, came, ended, missed};

use std::net::IpAddr;
use wgr_io::{DeviceError, Read, Write};

/// Which of a service's two listeners a connection came to.
#[derive(Clone, Copy, Debug, PartialEq, Eq)]
pub enum Door {
    /// The one of tenants' requests.
    Requests,
    /// The one of the operator's orders.
    Orders,
}

/// An accepted connection.
pub struct Arrival<R, W> {
    /// Where it came.
    pub door: Door,
    /// What the client sends.
    pub reader: R,
    /// What is sent to the client.
    pub writer: W,
    /// The clock's time after it was accepted, in whole seconds since 1970-01-01 00:00 UTC; none if
    /// the clock failed.
    pub clock: Option<u64>,
}

/// A connection that could not be accepted.
#[derive(Clone, Copy, Debug, PartialEq, Eq)]
pub struct Missed {
    /// Where it came.
    pub door: Door,
}

/// Whether a connection kept to its limits of time.
#[derive(Clone, Copy, Debug, PartialEq, Eq)]
pub enum Pace {
    /// No read and no write failed as its limit was over.
    InTime,
    /// One did.
    Late,
}

/// The network as a server sees it.
///
/// [`Sockets`](crate::Sockets) is the system's network, whose log is unknown. What is proved of a server
/// over any network also holds for one whose log is known.
///
/// A connection is returned with its own time, so that of an earlier one can't be used for it.
/// Reader and writer aren't `Drop`, so each has to be passed to `end`. Both own a handle to the socket,
/// since an associated type has no lifetime here, which a borrowed stream would need.
pub trait Network {
    /// The reader of a connection.
    type Reader: Read;
    /// The writer of a connection.
    type Writer: Write;

    /// What happened so far, where it is known.
    ghost log: { Self → Log };

    /// How many orders may still come. A server that waits for requests ends although orders come first.
    ghost orders: { Self → ℕ };

    /// Listens for requests at this address and port, and no longer at another; and for no orders.
    fn listen(&mut self, address: IpAddr, port: u16) -> Result<(), DeviceError>
        ensures bound { OnOk result (Logs (log self.old) (log self.new) (bound address port ∷ [])) }
        ensures kept { OnErr result (log self.new ≡ log self.old) };

    /// Listens for orders at a Unix socket with this path too, once it listens for requests.
    fn listen_orders(&mut self, path: &str) -> Result<(), DeviceError>
        ensures bound { OnOk result (Logs (log self.old) (log self.new) (bound_orders path.now ∷ [])) }
        ensures kept { OnErr result (log self.new ≡ log self.old) };

    /// Waits for the next connection, and then reads the clock. Orders that wait come before requests.
    fn next(&mut self) -> Result<Arrival<Self::Reader, Self::Writer>, Missed>
        ensures came { IfOk result (λ it. Logs (log self.old) (log self.new) (came it.door it.clock (Self.Reader.remaining it.reader) (Self.Writer.contents it.writer) ∷ [])) }
        ensures sound { IfOk result (λ it. (Self.Reader.failed it.reader ≡ false) × (Self.Writer.failed it.writer ≡ false)) }
        ensures missed { IfErr result (λ it. Logs (log self.old) (log self.new) (missed it.door ∷ [])) }
        ensures fewer { IfOk result (λ it. it.door ≡ Door.Orders → orders self.new < orders self.old) }
        ensures fewer_missed { IfErr result (λ it. it.door ≡ Door.Orders → orders self.new < orders self.old) }
        ensures no_more { orders self.new ≤ orders self.old };

    /// Connects to the Unix socket with this path, at which a service takes orders.
    fn call(&mut self, path: &str) -> Result<(Self::Reader, Self::Writer), DeviceError>
        ensures called { IfOk result (λ it. Logs (log self.old) (log self.new) (called path.now (Self.Reader.remaining it.0) (Self.Writer.contents it.1) ∷ [])) }
        ensures sound { IfOk result (λ it. (Self.Reader.failed it.0 ≡ false) × (Self.Writer.failed it.1 ≡ false)) }
        ensures kept { OnErr result (log self.new ≡ log self.old) };

    /// Shuts down writing, waits for what the client still sends, and closes the connection. Only one of which a
    /// read or a write had failed was late.
    fn end(&mut self, reader: Self::Reader, writer: Self::Writer) -> Pace
        ensures ended { Logs (log self.old) (log self.new) (ended (Self.Writer.contents writer) (Self.Reader.failed reader) (Self.Writer.failed writer) ∷ []) }
        ensures in_time { Self.Reader.failed reader ≡ false → Self.Writer.failed writer ≡ false → result ≡ Pace.InTime }
        ensures no_more { orders self.new ≤ orders self.old };
}
