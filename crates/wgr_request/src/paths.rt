//! The paths that are served.
ghost use Rattle.std.specs.Prelude.{◌≡◌, ◌&&◌, IfOk, Option, Some, codes, bytes_eq, option_map};
ghost use Rattle.std.specs.List.{list_any};
ghost use Rattle.wgr_request.specs.Paths.{allow_text, has_method, methods, route_rows};

use matchit::{InsertError, Router};
use std::alloc::{AllocError, Global};

/// What is at a path.
#[derive(Clone, Copy, Debug, PartialEq, Eq)]
pub(crate) enum Place {
    Networks,
    Peers,
    Peer,
    Address,
    Routes,
    Lease,
    PeerFile,
    Unroute,
    Dump,
    Owner,
    ServerFile,
}

/// The methods of a path.
#[derive(Clone, Copy, Debug, PartialEq, Eq)]
pub enum Methods {
    Get,
    GetOrPost,
    Post,
    Delete,
}

impl Methods {
    /// As a reply of status 405 names them.
    pub fn text(self) -> &'static str
        ensures { result.now ≡ allow_text self }
    {
        match self {
            Methods::Get => "GET",
            Methods::GetOrPost => "GET, POST",
            Methods::Post => "POST",
            Methods::Delete => "DELETE",
        }
    }

    /// Whether the method is one of them; letters of the other case are other methods.
    pub(crate) fn has(self, method: &[u8]) -> bool
        ensures { result ≡ has_method self method.now }
    {
        match self {
            Methods::Get => method == b"GET".as_slice(),
            Methods::GetOrPost => method == b"GET".as_slice() || method == b"POST".as_slice(),
            Methods::Post => method == b"POST".as_slice(),
            Methods::Delete => method == b"DELETE".as_slice(),
        }
    }
}

impl Place {
    /// Its methods.
    pub(crate) fn methods(self) -> Methods
        ensures { result ≡ methods self }
    {
        match self {
            Place::Networks | Place::PeerFile | Place::Owner | Place::ServerFile => Methods::Get,
            Place::Peers => Methods::GetOrPost,
            Place::Peer => Methods::Delete,
            Place::Address | Place::Routes | Place::Lease | Place::Unroute | Place::Dump => {
                Methods::Post
            }
        }
    }
}

// The router of all paths.
fn router(alloc: Global) -> Result<Router<Place>, InsertError>
    ensures { IfOk result (λ r. r ≡ route_rows) }
{
    let mut router = Router::new(alloc);
    router.insert("/networks", Place::Networks)?;
    router.insert("/networks/{name}/peers", Place::Peers)?;
    router.insert("/networks/{name}/peers/{number}", Place::Peer)?;
    router.insert("/networks/{name}/peers/{number}/address", Place::Address)?;
    router.insert("/networks/{name}/peers/{number}/routes", Place::Routes)?;
    router.insert("/networks/{name}/peers/{number}/lease", Place::Lease)?;
    router.insert(
        "/networks/{name}/peers/{number}/file/{form}",
        Place::PeerFile,
    )?;
    router.insert("/networks/{name}/unroute", Place::Unroute)?;
    router.insert("/networks/{name}/dump", Place::Dump)?;
    router.insert("/networks/{name}/owner/{address}", Place::Owner)?;
    router.insert("/networks/{name}/server/{form}", Place::ServerFile)?;
    Ok(router)
}

/// The paths that are served.
#[derive(Drop)]
pub struct Paths {
    pub(crate) router: Router<Place>,
    ghost rows: { router ≡ route_rows },
}

impl Paths {
    /// All paths, as the type's invariant has them, which says everything about the value.
    pub fn new(alloc: Global) -> Result<Paths, AllocError> {
        match router(alloc) {
            Ok(router) => Ok(Paths { router }),
            // No path conflicts with another, so only memory can have run out.
            Err(_) => Err(AllocError),
        }
    }
}
