//! The listeners: that of requests, and the socket of the operator's orders.
use crate::limit::{Limit, most_time};
use crate::network::Door;
use crate::silent::{Silent, Waiting};
use crate::watch::Watch;
use std::alloc::Global;
use std::fs::{self, Files, Permissions};
use std::io;
use std::net::{IpAddr, Net, OpenListener, TcpListener};
use std::os::unix::fs::{FileTypeExt, PermissionsExt};
use std::os::unix::net::{UnixListener, UnixStream};
use std::time::Clock;

/// Who may connect to the socket: its owner.
const MODE: u32 = 0o600;

/// The listener of requests, and the connections that it gave and that have sent nothing yet.
#[derive(Drop)]
pub(crate) struct RequestDoor<H: Net> {
    listener: H::Listener,
    watch: Watch,
    silent: Silent<H>,
}

impl<H: Clock + Net> RequestDoor<H> {
    /// Listens at this address.
    pub(crate) fn open(
        alloc: Global,
        host: &H,
        address: IpAddr,
        port: u16,
    ) -> io::Result<RequestDoor<H>> {
        let listener = TcpListener::bind(host, (address, port))?;
        listener.set_nonblocking(true)?;
        let watch = Watch::new(alloc, host)?;
        watch.add(&listener)?;
        Ok(RequestDoor {
            listener,
            watch,
            silent: Silent::new(alloc),
        })
    }

    /// The next connection to be served, if one waits: no client that sends nothing holds up one that does.
    pub(crate) fn accept(&mut self, host: &H) -> io::Result<Option<Waiting<H>>> {
        for _ in 0..u64::MAX {
            if let Some(one) = self.silent.take(host, &self.watch) {
                return Ok(Some(one));
            }
            let one = match self.listener.accept() {
                Ok((stream, _)) => Waiting {
                    stream,
                    limit: Limit::begun(most_time(Door::Requests), host),
                },
                Err(error) if error.kind() == io::ErrorKind::WouldBlock => return Ok(None),
                Err(error) => return Err(error),
            };
            if let Some(one) = self.silent.keep(one, &self.watch) {
                return Ok(Some(one));
            }
        }
        Ok(None)
    }

    /// Waits until a connection comes to this listener or to that of orders, or a silent one is to be served. What comes
    /// is told once, so both have to be asked after each wait, until neither has any.
    pub(crate) fn sleep(&mut self, host: &H) -> io::Result<()> {
        let most = self.silent.left(host);
        self.watch.sleep(most)
    }
}

/// A Unix socket for orders.
#[derive(Drop)]
pub(crate) struct OrderDoor {
    listener: UnixListener,
    // Of this listener alone.
    watch: Watch,
}

impl OrderDoor {
    /// Listens at this path, and is waited for beside the other listener.
    pub(crate) fn open<H: Files + Net>(
        alloc: Global,
        host: &H,
        beside: &RequestDoor<H>,
        path: &str,
    ) -> io::Result<OrderDoor> {
        let listener = bind(host, path)?;
        fs::set_permissions(host, path, Permissions::from_mode(MODE))?;
        listener.set_nonblocking(true)?;
        beside.watch.add(&listener)?;
        let watch = Watch::new(alloc, host)?;
        watch.add(&listener)?;
        Ok(OrderDoor { listener, watch })
    }

    /// The next connection, if one waits. Without a free file descriptor the system refuses to accept one also
    /// where none waits.
    pub(crate) fn accept(&mut self) -> io::Result<Option<UnixStream>> {
        match self.listener.accept() {
            Ok((stream, _)) => Ok(Some(stream)),
            Err(error) if error.kind() == io::ErrorKind::WouldBlock => Ok(None),
            Err(error) if self.watch.has(&self.listener)? => Err(error),
            Err(_) => Ok(None),
        }
    }
}

// Listens at the path. A socket that a killed service left there is replaced, and nothing else.
fn bind<H: Files + Net>(host: &H, path: &str) -> io::Result<UnixListener> {
    match UnixListener::bind(host, path) {
        Err(error) if error.kind() == io::ErrorKind::AddrInUse && is_left(host, path) => {
            fs::remove_file(host, path)?;
            UnixListener::bind(host, path)
        }
        bound => bound,
    }
}

// Whether the path is a socket at which no process listens.
fn is_left<H: Files + Net>(host: &H, path: &str) -> bool {
    let Ok(found) = fs::symlink_metadata(host, path) else {
        return false;
    };
    if !found.file_type().is_socket() {
        return false;
    }
    match UnixStream::connect(host, path) {
        Ok(_) => false,
        Err(error) => error.kind() == io::ErrorKind::ConnectionRefused,
    }
}
