//! A network: its parts, its rules, and its live part.
ghost use Rattle.std.specs.Prelude.{◌≡◌, [], ◌∷◌, ◌↔◌, IsSome, IfSome, IfOk, IsOk, OnOk, OnErr, Some, not, is_some, All};
ghost use Rattle.std.specs.List.{filter};
ghost use Rattle.std.specs.Option.{option_copied};
ghost use Rattle.wgr_peers.specs.Peers.{key_holder, peer_of, put_peer};
ghost use Rattle.wgr_peers.specs.PeerIndex.{EndsFrom};
ghost use Rattle.wgr_peers.specs.PeersLeft.{HasItsPlaces, OnlyRenews, peers_after};
ghost use Rattle.wgr_core.specs.Network.{NetworkValue, IsNetwork, is_among, live_at, without_peers};
ghost use Rattle.wgr_core.specs.Change.{without_routes};
ghost use Rattle.wgr_core.specs.Parts.{IsNetworkOf, KeepTheRules, network_of};
ghost use Rattle.wgr_peers.specs.Routes.{assign_route, without_route};

use crate::arrange::{are_ordered, sort_peers, sort_routes};
use crate::change::{drop_each, drop_routes_of};
use crate::parts::{Parts, are_routes};
use std::alloc::{AllocError, Global};
use std::marker::Model;
use wgr_peers::order::{drop_route, drop_routes_to, put_route};
use wgr_peers::{Capacity, Host, NumberSet, Peer, PeerTable, Port};
use wgr_pool::Pool;
use wgr_text::{Key, Prefix};

/// One network: a pool, an endpoint, a server key and a capacity; its peers by number, and its
/// routes, which are prefixes that each lead to one peer.
#[derive(Drop)]
pub struct Network {
    pool: Pool,
    host: Host,
    port: Port,
    server: Key,
    capacity: Capacity,
    next: u32,
    pub(crate) peers: PeerTable,
    pub(crate) routes: Vec<(Prefix, u32)>,
}

impl Model for Network {
    ghost Value = { NetworkValue };

    ghost view = { λ n. record { pool = n.pool; host = n.host; port = n.port; server = n.server; capacity = n.capacity; next = n.next; peers = n.peers; routes = n.routes.items } };

    ghost invariant = { λ n. IsNetwork (record { pool = n.pool; host = n.host; port = n.port; server = n.server; capacity = n.capacity; next = n.next; peers = n.peers; routes = n.routes.items }) };
}

impl Network {
    /// A network without peers, whose first one will have the number 1.
    pub fn new(
        alloc: Global,
        pool: Pool,
        host: Host,
        port: Port,
        server: Key,
        capacity: Capacity,
    ) -> Network
        ensures { result ≡ record { pool = pool; host = host; port = port; server = server; capacity = capacity; next = 1; peers = []; routes = [] } }
    {
        let _pool = pool.prefix();
        let _port = port.number();
        let _capacity = capacity.peers();
        Network {
            pool,
            host,
            port,
            server,
            capacity,
            next: 1,
            peers: PeerTable::new(alloc),
            routes: Vec::new(alloc),
        }
    }

    /// The network of these parts, if they keep the rules of a network. Peers and routes may come in
    /// any order; the network has them in the order of their keys. Those that are in order already
    /// are not sorted.
    pub fn of(alloc: Global, parts: Parts) -> Result<Option<Network>, AllocError>
        ensures some { IfOk result (λ made. IfSome made (λ n. IsNetworkOf parts n)) }
        ensures exact { IfOk result (λ made. IsSome made ↔ KeepTheRules parts) }
    {
        let mut sorted = parts;
        sort_peers(&mut sorted.peers);
        sort_routes(&mut sorted.routes);
        Network::of_sorted(alloc, sorted)
    }

    // The network of these parts as they are, if they keep the rules.
    fn of_sorted(alloc: Global, parts: Parts) -> Result<Option<Network>, AllocError>
        ensures some { IfOk result (λ made. IfSome made (λ n. n ≡ network_of parts)) }
        ensures exact { IfOk result (λ made. IsSome made ↔ IsNetwork (network_of parts)) }
    {
        if !parts.is_within_limits() || !parts.has_members() || !are_ordered(&parts.routes) {
            return Ok(None);
        }
        let Some(peers) = PeerTable::of(alloc, parts.peers)? else {
            return Ok(None);
        };
        if !are_routes(&parts.pool, &peers, &parts.routes) {
            return Ok(None);
        }
        let _pool = parts.pool.prefix();
        let _port = parts.port.number();
        let _capacity = parts.capacity.peers();
        Ok(Some(Network {
            pool: parts.pool,
            host: parts.host,
            port: parts.port,
            server: parts.server,
            capacity: parts.capacity,
            next: parts.next,
            peers,
            routes: parts.routes,
        }))
    }

    /// Does nothing. Its contract says that the network keeps the rules of a network.
    pub fn rules_hold(&self)
        ensures { IsNetwork self.now }
    {
        let _pool = self.pool;
    }

    /// The pool from which addresses are given.
    pub fn pool(&self) -> Pool
        ensures value { result ≡ self.now.pool }
        ensures rules { IsNetwork self.now }
    {
        self.pool
    }

    /// The endpoint's host.
    pub fn host(&self) -> &Host
        ensures { result.now ≡ self.now.host }
    {
        &self.host
    }

    /// The endpoint's port.
    pub fn port(&self) -> Port
        ensures { result ≡ self.now.port }
    {
        self.port
    }

    /// The server's public key.
    pub fn server_key(&self) -> Key
        ensures { result ≡ self.now.server }
    {
        self.server
    }

    /// How many peers the network may have.
    pub fn capacity(&self) -> Capacity
        ensures { result ≡ self.now.capacity }
    {
        self.capacity
    }

    /// The number that the next peer gets.
    pub fn next(&self) -> u32
        ensures value { result ≡ self.now.next }
        ensures rules { IsNetwork self.now }
    {
        self.next
    }

    /// The peers by number, including those whose lease is over.
    pub fn peers(&self) -> &[Peer]
        ensures { result.now ≡ self.now.peers }
    {
        self.peers.as_slice()
    }

    /// The peer with this number, whether or not its lease is over.
    pub fn peer(&self, number: u32) -> Option<&Peer>
        ensures { option_copied result ≡ peer_of self.now.peers number }
    {
        self.peers.peer(number)
    }

    /// A moment before which no lease of the network's peers ends, in seconds since 1970-01-01 (UTC).
    pub fn soonest_end(&self) -> u64
        ensures { All (EndsFrom result) self.now.peers }
    {
        self.peers.soonest_end()
    }

    /// The routes in the order of their prefixes, each with its peer's number.
    pub fn routes(&self) -> &[(Prefix, u32)]
        ensures { result.now ≡ self.now.routes }
    {
        &self.routes
    }

    // The peers and their indexes.
    pub(crate) fn table(&self) -> &PeerTable
        ensures value { result.now ≡ self.now.peers }
        ensures rules { IsNetwork self.now }
    {
        &self.peers
    }

    /// The network without the expired peers, and the routes to them.
    pub fn live_at(&self, alloc: Global, now: u64) -> Result<Network, AllocError>
        ensures { IfOk result (λ live. live ≡ live_at self.now now) }
    {
        let peers = PeerTable::collect(alloc, self.peers.live(alloc, now)?)?;
        let routes = self.routes_within(alloc, &peers)?;
        self.with(self.next, peers, routes)
    }

    // The network with this next number, these peers and these routes in place of its own.
    pub(crate) fn with(
        &self,
        next: u32,
        peers: PeerTable,
        routes: Vec<(Prefix, u32)>,
    ) -> Result<Network, AllocError>
        requires { IsNetwork (record self.now { next = next; peers = peers; routes = routes.items }) }
        ensures { IfOk result (λ network. network ≡ record self.now { next = next; peers = peers; routes = routes.items }) }
    {
        Ok(Network {
            pool: self.pool,
            host: self.host.copy()?,
            port: self.port,
            server: self.server,
            capacity: self.capacity,
            next,
            peers,
            routes,
        })
    }

    // Puts in a peer, in place of the one with its number if there is one, and sets the next number;
    // if memory runs out, the network is unchanged.
    pub(crate) fn put(&mut self, peer: Peer, next: u32) -> Result<(), AllocError>
        requires { IsNetwork (record self.old { peers = put_peer self.old.peers peer; next = next }) }
        ensures ok { OnOk result (self.new ≡ record self.old { peers = put_peer self.old.peers peer; next = next }) }
        ensures err { OnErr result (self.new ≡ self.old) }
        ensures succeeds { key_holder self.old.peers peer.key ≡ Some peer.number → HasItsPlaces self.old.peers peer → IsOk result }
    {
        self.peers.put(peer)?;
        self.next = next;
        Ok(())
    }

    // Removes the peer with this number and the routes to it, and sets the next number.
    pub(crate) fn leave(&mut self, number: u32, next: u32)
        requires { IsNetwork (record (without_peers self.old (number ∷ [])) { next = next }) }
        ensures { self.new ≡ record (without_peers self.old (number ∷ [])) { next = next } }
    {
        self.peers.remove(number);
        drop_routes_to(&mut self.routes, number);
        self.next = next;
    }

    // Removes the peers with these numbers, puts in the one that comes, has these routes in place of
    // its own, and sets the next number; if memory runs out, the network is unchanged.
    pub(crate) fn change(
        &mut self,
        gone: NumberSet,
        coming: Option<Peer>,
        routes: Vec<(Prefix, u32)>,
        next: u32,
    ) -> Result<(), AllocError>
        requires { IsNetwork (record self.old { peers = peers_after self.old.peers gone coming; routes = routes.items; next = next }) }
        ensures ok { OnOk result (self.new ≡ record self.old { peers = peers_after self.old.peers gone coming; routes = routes.items; next = next }) }
        ensures err { OnErr result (self.new ≡ self.old) }
    {
        self.peers.change(gone, coming)?;
        self.routes = routes;
        self.next = next;
        Ok(())
    }

    // Removes the peers with these numbers and the routes to them, and these routes; puts in the peer
    // that comes, in place of one that stays; and sets the next number. It allocates no memory.
    pub(crate) fn renew(
        &mut self,
        gone: NumberSet,
        coming: Option<Peer>,
        routes_gone: &[Prefix],
        next: u32,
    )
        requires fits { IsNetwork (record self.old { peers = peers_after self.old.peers gone coming; routes = without_routes (filter (λ r. not (is_among gone r.1)) self.old.routes) routes_gone.now; next = next }) }
        requires renews { OnlyRenews self.old.peers gone coming }
        ensures { self.new ≡ record self.old { peers = peers_after self.old.peers gone coming; routes = without_routes (filter (λ r. not (is_among gone r.1)) self.old.routes) routes_gone.now; next = next } }
    {
        drop_routes_of(&mut self.routes, &gone);
        drop_each(&mut self.routes, routes_gone);
        let Ok(()) = self.peers.change(gone, coming) else {
            unreachable!();
        };
        self.next = next;
    }

    // Leads a prefix to the peer with this number, and sets the next number; if memory runs out, the
    // network is unchanged.
    pub(crate) fn assign_route(
        &mut self,
        prefix: Prefix,
        number: u32,
        next: u32,
    ) -> Result<(), AllocError>
        requires { IsNetwork (record self.old { routes = assign_route self.old.routes prefix number; next = next }) }
        ensures ok { OnOk result (self.new ≡ record self.old { routes = assign_route self.old.routes prefix number; next = next }) }
        ensures err { OnErr result (self.new ≡ self.old) }
    {
        put_route(&mut self.routes, prefix, number)?;
        self.next = next;
        Ok(())
    }

    // Removes the route of a prefix, and sets the next number.
    pub(crate) fn drop_route(&mut self, prefix: &Prefix, next: u32)
        requires { IsNetwork (record self.old { routes = without_route self.old.routes prefix.now; next = next }) }
        ensures { self.new ≡ record self.old { routes = without_route self.old.routes prefix.now; next = next } }
    {
        drop_route(&mut self.routes, prefix);
        self.next = next;
    }

    // The routes that lead to one of these peers.
    fn routes_within(
        &self,
        alloc: Global,
        peers: &PeerTable,
    ) -> Result<Vec<(Prefix, u32)>, AllocError>
        ensures { IfOk result (λ routes. routes.items ≡ filter (λ r. is_some (peer_of peers.now r.1)) self.now.routes) }
    {
        let mut routes = Vec::new(alloc);
        for route in &self.routes {
            if peers.peer(route.1).is_some() {
                routes.push(*route)?;
            }
        }
        Ok(routes)
    }
}
