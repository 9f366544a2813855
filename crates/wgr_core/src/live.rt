//! What is live of a network at a moment, with no copy of it.
ghost use Rattle.std.specs.Prelude.{◌≡◌, [], ◌∷◌, nat_eq, nat_lt, not, length, map, is_some, IfOk};
ghost use Rattle.std.specs.List.{filter, list_any};
ghost use Rattle.std.specs.HashSet.{contains};
ghost use Rattle.std.specs.Option.{option_copied};
ghost use Rattle.wgr_pool.specs.PrefixTests.{same_address};
ghost use Rattle.wgr_peers.specs.Peers.{expired, is_own, key_holder, peer_of};
ghost use Rattle.wgr_peers.specs.Routes.{route_of, routes_to};
ghost use Rattle.wgr_core.specs.Live.{IsLive};
ghost use Rattle.wgr_core.specs.Network.{NetworkValue, IsNetwork, live_at};
ghost use Rattle.wgr_peers.specs.Limits.{max_routes};

use crate::change::{Change, number_set};
use crate::network::Network;
use crate::routes::prefixes_of;
use std::alloc::{AllocError, Global};
use std::collections::HashSet;
use std::marker::Model;
use wgr_peers::{Capacity, ExpiredPeers, Items, MAX_ROUTES, Peer};
use wgr_pool::Pool;
use wgr_text::{Addr, Key, Prefix};

/// A network reduced to its live peers and the routes to them. It refers to the whole network, and
/// its lookups skip what is expired.
#[derive(Drop)]
pub(crate) struct Live<'a> {
    pub(crate) network: &'a Network,
    pub(crate) moment: u64,
    // The numbers and the addresses of the expired peers.
    pub(crate) expired: HashSet<u32>,
    pub(crate) addresses: Items<Addr>,
}

impl<'a> Model for Live<'a> {
    ghost Value = { NetworkValue };

    ghost view = { λ l. live_at l.network.now l.moment };

    ghost invariant = { λ l. IsLive l.network.now l.moment (contains nat_eq l.expired) l.addresses };
}

impl<'a> Live<'a> {
    // What is live of the network at this moment, and the numbers of its expired peers.
    pub(crate) fn at(
        network: &'a Network,
        alloc: Global,
        now: u64,
    ) -> Result<(Live<'a>, Items<u32>), AllocError>
        ensures live { IfOk result (λ found. found.0 ≡ live_at network.now now) }
        ensures rules { IsNetwork network.now }
        ensures expired { IfOk result (λ found. found.1 ≡ expired now network.now.peers) }
    {
        let ExpiredPeers { numbers, addresses } = network.table().expired(alloc, now)?;
        let expired = number_set(alloc, numbers.as_slice())?;
        let live = Live {
            network,
            moment: now,
            expired,
            addresses,
        };
        Ok((live, numbers))
    }
}

impl Live<'_> {
    // Does nothing. Its contract says that what is live keeps the rules of a network.
    pub(crate) fn rules_hold(&self)
        ensures { IsNetwork self.now }
    {
        self.network.rules_hold();
    }

    pub(crate) fn pool(&self) -> Pool
        ensures value { result ≡ self.now.pool }
        ensures rules { IsNetwork self.now }
    {
        self.network.pool()
    }

    pub(crate) fn server_key(&self) -> Key
        ensures { result ≡ self.now.server }
    {
        self.network.server_key()
    }

    pub(crate) fn capacity(&self) -> Capacity
        ensures { result ≡ self.now.capacity }
    {
        self.network.capacity()
    }

    // The number that the next peer gets.
    pub(crate) fn next(&self) -> u32
        ensures value { result ≡ self.now.next }
        ensures rules { IsNetwork self.now }
    {
        self.network.next()
    }

    // How many peers are live.
    pub(crate) fn len(&self) -> usize
        ensures { result ≡ length self.now.peers }
    {
        self.network.table().len() - self.addresses.as_slice().len()
    }

    // The live peer with this number.
    pub(crate) fn peer(&self, number: u32) -> Option<&Peer>
        ensures { option_copied result ≡ peer_of self.now.peers number }
    {
        let Some(peer) = self.network.table().peer(number) else {
            return None;
        };
        if !peer.is_live(self.moment) {
            return None;
        }
        Some(peer)
    }

    // The number of the live peer that has this key.
    pub(crate) fn key_holder(&self, key: &Key) -> Option<u32>
        ensures { result ≡ key_holder self.now.peers key.now }
    {
        let Some(number) = self.network.table().key_holder(key) else {
            return None;
        };
        let Some(peer) = self.peer(number) else {
            return None;
        };
        Some(peer.number)
    }

    // Whether a live peer has the address as its own.
    pub(crate) fn owns(&self, address: &Addr) -> bool
        ensures { result ≡ is_own self.now.peers address.now }
    {
        self.network.table().owns(address) && !is_one_of(self.addresses.as_slice(), address)
    }

    // The live peer to which this prefix leads.
    pub(crate) fn route(&self, prefix: &Prefix) -> Option<u32>
        ensures { result ≡ route_of self.now.routes prefix.now }
    {
        let Some(number) = self.network.route(prefix) else {
            return None;
        };
        let Some(_owner) = self.peer(number) else {
            return None;
        };
        Some(number)
    }

    // Whether there are as many routes as a network may have.
    pub(crate) fn is_full(&self) -> bool
        ensures { result ≡ not (nat_lt (length self.now.routes) max_routes) }
    {
        self.network.routes().len() >= MAX_ROUTES && self.count_routes() >= MAX_ROUTES
    }

    // How many routes lead to live peers.
    fn count_routes(&self) -> usize
        ensures { result ≡ length self.now.routes }
    {
        let mut count = 0;
        for route in self.network.routes() {
            if self.peer(route.1).is_some() {
                count += 1;
            }
        }
        count
    }

    // The routes that lead to the live peer with this number.
    pub(crate) fn own_routes(
        &self,
        alloc: Global,
        number: u32,
    ) -> Result<Vec<(Prefix, u32)>, AllocError>
        ensures { IfOk result (λ own. own.items ≡ filter (λ r. nat_eq r.1 number) self.now.routes) }
    {
        let network = self.network;
        let Some(_peer) = self.peer(number) else {
            return Ok(Vec::new(alloc));
        };
        network.own_routes(alloc, number)
    }

    // The prefixes that lead to the live peer with this number.
    pub(crate) fn routes_to(&self, alloc: Global, number: u32) -> Result<Items<Prefix>, AllocError>
        ensures { IfOk result (λ routes. routes ≡ routes_to self.now.routes number) }
    {
        prefixes_of(alloc, &self.own_routes(alloc, number)?)
    }

    // The change that only removes these peers.
    pub(crate) fn removal(&self, alloc: Global, removed: Items<u32>) -> Change
        ensures { result ≡ record { removed = removed; peers = []; routes_put = []; routes_gone = []; next = self.now.next } }
    {
        self.network.removal(alloc, removed)
    }
}

// Whether the address is one of these.
fn is_one_of(addresses: &[Addr], address: &Addr) -> bool
    ensures { result ≡ list_any (λ b. same_address b address.now) addresses.now }
{
    addresses.iter().any(|one| is_same(one, address))
}

// Whether the two addresses are the same.
pub(crate) fn is_same(one: &Addr, other: &Addr) -> bool
    ensures { result ≡ same_address one.now other.now }
{
    one == other
}

// A list of one item.
pub(crate) fn one_item<T: Drop>(alloc: Global, item: T) -> Result<Items<T>, AllocError>
    ensures { IfOk result (λ items. items ≡ item ∷ []) }
{
    let mut items = Items::new(alloc);
    items.push(item)?;
    Ok(items)
}
