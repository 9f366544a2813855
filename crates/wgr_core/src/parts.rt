//! The parts of a network, and whether they keep its rules.
ghost use Rattle.std.specs.Prelude.{◌≡◌, ◌+◌, ◌≤◌, ◌↔◌, IsTrue, All, length};
ghost use Rattle.wgr_core.specs.Network.{AreAlone, NetworkValue, IsMember, IsRoute};
ghost use Rattle.wgr_core.specs.Parts.{network_of};
ghost use Rattle.wgr_peers.specs.Limits.{max_number, max_routes};

use crate::routes::is_address;
use wgr_peers::{Capacity, Host, MAX_NUMBER, MAX_ROUTES, Peer, PeerTable, Port};
use wgr_pool::Pool;
use wgr_text::{Key, Prefix};

/// The parts of which a network is made.
#[derive(Drop)]
pub struct Parts {
    /// The pool from which addresses are given.
    pub pool: Pool,
    /// The endpoint's host.
    pub host: Host,
    /// The endpoint's port.
    pub port: Port,
    /// The server's public key.
    pub server: Key,
    /// How many peers the network may have.
    pub capacity: Capacity,
    /// The number that the next peer gets: 1 to 1,000,001.
    pub next: u32,
    /// The peers, in any order.
    pub peers: Vec<Peer>,
    /// The routes, each with its peer's number, in any order.
    pub routes: Vec<(Prefix, u32)>,
}

impl Parts {
    // Whether the next number can be one, and there is room for the peers and the routes.
    pub(crate) fn is_within_limits(&self) -> bool
        ensures { IsTrue result ↔ ((1 ≤ self.now.next) × (self.now.next ≤ max_number + 1) × (length self.now.peers.items ≤ self.now.capacity) × (length self.now.routes.items ≤ max_routes)) }
    {
        1 <= self.next
            && self.next <= MAX_NUMBER + 1
            && self.peers.len() <= usize::from(self.capacity.peers())
            && self.routes.len() <= MAX_ROUTES
    }

    // Whether each peer may be one of this network's.
    pub(crate) fn has_members(&self) -> bool
        ensures { IsTrue result ↔ All (IsMember (network_of self.now)) self.now.peers.items }
    {
        for peer in &self.peers {
            if !self.is_member(peer) {
                return false;
            }
        }
        true
    }

    // Whether the peer's number is given already, its key isn't the server's, and the pool may give
    // its address, the only one that it has.
    fn is_member(&self, peer: &Peer) -> bool
        ensures { IsTrue result ↔ IsMember (network_of self.now) peer.now }
    {
        1 <= peer.number
            && peer.number < self.next
            && peer.key != self.server
            && self.pool.gives(&peer.address)
            && peer.second.is_none()
    }
}

// Whether each route leads to one of these peers, and isn't an address of theirs or the server's.
pub(crate) fn are_routes(pool: &Pool, peers: &PeerTable, routes: &[(Prefix, u32)]) -> bool
    ensures { (n : NetworkValue) → AreAlone n.peers → n.pool ≡ pool.now → n.peers ≡ peers.now → IsTrue result ↔ All (IsRoute n) routes.now }
{
    for route in routes {
        if !is_route(pool, peers, route) {
            return false;
        }
    }
    true
}

fn is_route(pool: &Pool, peers: &PeerTable, route: &(Prefix, u32)) -> bool
    ensures { (n : NetworkValue) → AreAlone n.peers → n.pool ≡ pool.now → n.peers ≡ peers.now → IsTrue result ↔ IsRoute n route.now }
{
    let (_address, _length) = (route.0.address(), route.0.length());
    let is_owned = peers.owns(&route.0.address());
    peers.peer(route.1).is_some() && !is_address(pool, &route.0, is_owned)
}
