//! What an accepted command changes, and the two ways to make the change.
ghost use Rattle.std.specs.Prelude.{◌≡◌, ℕ, ◌≤◌, ◌↔◌, [], ◌∷◌, length, not, ◌&&◌, nat_eq, All, Some, IfOk, IfSome, IsOk, OnOk, OnErr, IsTrue, false};
ghost use Rattle.std.specs.List.{filter};
ghost use Rattle.std.specs.HashSet.{contains};
ghost use Rattle.wgr_core.specs.Change.{Fits, NothingGrows, OnlyPuts, applied, without_routes};
ghost use Rattle.wgr_core.specs.Network.{NetworkValue, is_among, without_peers};
ghost use Rattle.wgr_peers.specs.PeerIndex.{EndsFrom};
ghost use Rattle.wgr_peers.specs.Peers.{key_holder};
ghost use Rattle.wgr_peers.specs.PeersLeft.{HasItsPlaces};
ghost use Rattle.wgr_peers.specs.Routes.{AreOrdered, HasAddr};

use crate::network::Network;
use std::alloc::{AllocError, Global};
use std::collections::HashSet;
use wgr_peers::order::{drop_route, put_peer, put_route};
use wgr_peers::{Items, NumberSet, Peer, PeerTable, RouteSlots, soonest_end};
use wgr_text::Prefix;

/// What an accepted command changes of a network, in the order in which it is made.
#[derive(Drop)]
pub struct Change {
    /// Peers that are removed, by number, and the routes to them too.
    pub removed: Items<u32>,
    /// Peers that are added, or replace the one with their number.
    pub peers: Items<Peer>,
    /// Routes that are added, or lead to another peer from now on.
    pub routes_put: Items<(Prefix, u32)>,
    /// Routes that are removed.
    pub routes_gone: Items<Prefix>,
    /// The next number.
    pub next: u32,
}

impl Change {
    /// The network with this change.
    pub fn apply(&self, alloc: Global, network: &Network) -> Result<Network, AllocError>
        requires { Fits self.now network.now }
        ensures { IfOk result (λ changed. changed ≡ applied self.now network.now) }
    {
        let removed = number_set(alloc, self.removed.as_slice())?;
        let peers = self.changed_peers(alloc, network, &removed)?;
        let routes = self.changed_routes(alloc, network, &removed)?;
        network.with(self.next, PeerTable::collect(alloc, peers)?, routes)
    }

    /// A moment before which no lease of a changed network ends, if `before` is one of the network before it.
    pub fn soonest_end(&self, before: u64) -> u64
        ensures { (n : NetworkValue) → All (EndsFrom before) n.peers → All (EndsFrom result) (applied self.now n).peers }
    {
        before.min(soonest_end(self.peers.as_slice()))
    }

    // The network's peers without the removed ones, and with the added ones.
    fn changed_peers(
        &self,
        alloc: Global,
        network: &Network,
        removed: &HashSet<u32>,
    ) -> Result<Vec<Peer>, AllocError>
        requires { (n : ℕ) → contains nat_eq removed.now n ≡ is_among self.now.removed n }
        ensures { IfOk result (λ peers. peers.items ≡ (applied self.now network.now).peers) }
    {
        let mut peers = peers_outside(alloc, network.peers(), removed)?;
        network.rules_hold();
        for peer in self.peers.as_slice() {
            put_peer(&mut peers, peer.copy()?)?;
        }
        Ok(peers)
    }

    // The network's routes without the removed ones, and with the added ones.
    fn changed_routes(
        &self,
        alloc: Global,
        network: &Network,
        removed: &HashSet<u32>,
    ) -> Result<Vec<(Prefix, u32)>, AllocError>
        requires { (n : ℕ) → contains nat_eq removed.now n ≡ is_among self.now.removed n }
        ensures { IfOk result (λ routes. routes.items ≡ (applied self.now network.now).routes) }
    {
        let mut routes = self.routes_left(alloc, network, removed)?;
        let routes_put = self.routes_put.as_slice();
        // One route is put in its place; for several, all are sorted once.
        match routes_put {
            [] => return Ok(routes),
            [route] => {
                put_route(&mut routes, route.0, route.1)?;
                return Ok(routes);
            }
            _ => {}
        }
        let expected = routes_put.iter().map(|route| route.0).collect(alloc)?;
        let mut slots = RouteSlots::new(alloc, &routes, expected)?;
        for route in routes_put {
            slots.put(route.0, route.1)?;
        }
        Ok(slots.into_routes())
    }

    // The network's routes without the removed ones.
    fn routes_left(
        &self,
        alloc: Global,
        network: &Network,
        removed: &HashSet<u32>,
    ) -> Result<Vec<(Prefix, u32)>, AllocError>
        requires { (n : ℕ) → contains nat_eq removed.now n ≡ is_among self.now.removed n }
        ensures left { IfOk result (λ routes. routes.items ≡ without_routes (without_peers network.now self.now.removed).routes self.now.routes_gone) }
        ensures ordered { IfOk result (λ routes. AreOrdered routes.items) }
        ensures masked { IfOk result (λ routes. All HasAddr routes.items) }
    {
        let mut routes = routes_outside(alloc, network.routes(), removed)?;
        network.rules_hold();
        for prefix in self.routes_gone.as_slice() {
            drop_route(&mut routes, prefix);
        }
        Ok(routes)
    }

    // The one peer that is removed, if nothing else changes.
    fn sole_removal(&self) -> Option<u32>
        ensures { IfSome result (λ number. self.now ≡ record { removed = number ∷ []; peers = []; routes_put = []; routes_gone = []; next = self.now.next }) }
    {
        let is_removal = self.peers.is_empty()
            && self.routes_put.is_empty()
            && self.routes_gone.is_empty();
        match self.removed.as_slice() {
            [number] if is_removal => Some(*number),
            _ => None,
        }
    }

    // The one route that is put, if nothing else changes.
    fn sole_route(&self) -> Option<(Prefix, u32)>
        ensures { IfSome result (λ route. self.now ≡ record { removed = []; peers = []; routes_put = route ∷ []; routes_gone = []; next = self.now.next }) }
    {
        if !self.is_for_routes() || !self.routes_gone.is_empty() {
            return None;
        }
        match self.routes_put.as_slice() {
            [route] => Some(*route),
            _ => None,
        }
    }

    // The one route that is removed, if nothing else changes.
    fn sole_unroute(&self) -> Option<Prefix>
        ensures { IfSome result (λ prefix. self.now ≡ record { removed = []; peers = []; routes_put = []; routes_gone = prefix ∷ []; next = self.now.next }) }
    {
        if !self.is_for_routes() || !self.routes_put.is_empty() {
            return None;
        }
        match self.routes_gone.as_slice() {
            [prefix] => Some(*prefix),
            _ => None,
        }
    }

    // Whether no peers change.
    fn is_for_routes(&self) -> bool
        ensures { IsTrue result ↔ ((self.now.removed ≡ []) × (self.now.peers ≡ [])) }
    {
        self.removed.is_empty() && self.peers.is_empty()
    }

    // Whether the change only puts one peer.
    fn only_puts(&self) -> bool
        ensures { IsTrue result → OnlyPuts self.now }
    {
        self.peers.as_slice().len() == 1
            && self.removed.is_empty()
            && self.routes_put.is_empty()
            && self.routes_gone.is_empty()
    }
}

impl Network {
    /// Makes the change; if memory runs out, the network is unchanged.
    ///
    /// A change that only removes, moves and renews allocates no memory. No peer is copied if at most
    /// one is put. A change of only one peer, added, renewed, moved or removed, or of only one route,
    /// added or removed, makes no pass over the peers.
    pub fn apply(&mut self, alloc: Global, change: Change) -> Result<(), AllocError>
        requires { Fits change self.old }
        ensures ok { OnOk result (self.new ≡ applied change self.old) }
        ensures err { OnErr result (self.new ≡ self.old) }
        ensures succeeds { NothingGrows change self.old → IsOk result }
    {
        if change.only_puts() {
            let Some(peer) = change.peers.into_vec().pop() else {
                unreachable!();
            };
            return self.put(peer, change.next);
        }
        if let Some(number) = change.sole_removal() {
            self.leave(number, change.next);
            return Ok(());
        }
        if let Some(route) = change.sole_route() {
            return self.assign_route(route.0, route.1, change.next);
        }
        if let Some(prefix) = change.sole_unroute() {
            self.drop_route(&prefix, change.next);
            return Ok(());
        }
        if change.peers.as_slice().len() <= 1 {
            return self.apply_in_place(alloc, change);
        }
        *self = change.apply(alloc, self)?;
        Ok(())
    }

    // Makes a change that puts at most one peer, and copies no peer.
    fn apply_in_place(&mut self, alloc: Global, change: Change) -> Result<(), AllocError>
        requires fits { Fits change self.old }
        requires one { length change.peers ≤ 1 }
        ensures ok { OnOk result (self.new ≡ applied change self.old) }
        ensures err { OnErr result (self.new ≡ self.old) }
        ensures succeeds { NothingGrows change self.old → IsOk result }
    {
        if self.grows_nothing(&change) {
            self.shrink(change);
            return Ok(());
        }
        let removed = number_set(alloc, change.removed.as_slice())?;
        let routes = change.changed_routes(alloc, self, &removed)?;
        let gone = NumberSet::of(change.removed.into_vec());
        let coming = change.peers.into_vec().pop();
        self.change(gone, coming, routes, change.next)
    }

    // Makes a change that only removes, moves and renews, and allocates no memory.
    fn shrink(&mut self, change: Change)
        requires fits { Fits change self.old }
        requires shrinks { NothingGrows change self.old }
        ensures { self.new ≡ applied change self.old }
    {
        let gone = NumberSet::of(change.removed.into_vec());
        let coming = change.peers.into_vec().pop();
        self.renew(gone, coming, change.routes_gone.as_slice(), change.next);
    }

    // Whether the change only removes, moves and renews.
    fn grows_nothing(&self, change: &Change) -> bool
        ensures { IsTrue result ↔ NothingGrows change.now self.now }
    {
        if !change.routes_put.is_empty() {
            return false;
        }
        match change.peers.as_slice() {
            [] => true,
            [peer] => self.is_known(peer, change.removed.as_slice()),
            _ => false,
        }
    }

    // Whether a peer that stays has this one's number and key, and as many addresses.
    fn is_known(&self, peer: &Peer, gone: &[u32]) -> bool
        ensures { IsTrue result ↔ ((key_holder self.now.peers peer.now.key ≡ Some peer.now.number) × (is_among gone.now peer.now.number ≡ false) × HasItsPlaces self.now.peers peer.now) }
    {
        self.table().key_holder(&peer.key) == Some(peer.number)
            && !has_number(gone, peer.number)
            && self.has_its_places(peer)
    }

    // Whether the peer has a second address only where the one of its number has one.
    fn has_its_places(&self, peer: &Peer) -> bool
        ensures { IsTrue result ↔ HasItsPlaces self.now.peers peer.now }
    {
        if peer.second.is_none() {
            return true;
        }
        match self.table().peer(peer.number) {
            Some(one) => one.second.is_some(),
            None => true,
        }
    }

    // The change that only removes these peers.
    pub(crate) fn removal(&self, alloc: Global, removed: Items<u32>) -> Change
        ensures { result ≡ record { removed = removed; peers = []; routes_put = []; routes_gone = []; next = self.now.next } }
    {
        Change {
            removed,
            peers: Items::new(alloc),
            routes_put: Items::new(alloc),
            routes_gone: Items::new(alloc),
            next: self.next(),
        }
    }
}

/// The set of these numbers.
pub fn number_set(alloc: Global, numbers: &[u32]) -> Result<HashSet<u32>, AllocError>
    ensures { IfOk result (λ set. (n : ℕ) → contains nat_eq set n ≡ is_among numbers.now n) }
{
    let mut set = HashSet::new(alloc);
    for number in numbers {
        set.insert(*number)?;
    }
    Ok(set)
}

// The peers whose numbers are not in the set.
fn peers_outside(
    alloc: Global,
    peers: &[Peer],
    removed: &HashSet<u32>,
) -> Result<Vec<Peer>, AllocError>
    ensures { IfOk result (λ kept. kept.items ≡ filter (λ p. not (contains nat_eq removed.now p.number)) peers.now) }
{
    let mut kept = Vec::new(alloc);
    for peer in peers {
        if !removed.contains(&peer.number) {
            kept.push(peer.copy()?)?;
        }
    }
    Ok(kept)
}

// The routes to peers whose numbers are not in the set.
fn routes_outside(
    alloc: Global,
    routes: &[(Prefix, u32)],
    removed: &HashSet<u32>,
) -> Result<Vec<(Prefix, u32)>, AllocError>
    ensures { IfOk result (λ kept. kept.items ≡ filter (λ r. not (contains nat_eq removed.now r.1)) routes.now) }
{
    let mut kept = Vec::new(alloc);
    for route in routes {
        if !removed.contains(&route.1) {
            kept.push(*route)?;
        }
    }
    Ok(kept)
}

// Whether the number is one of these.
fn has_number(numbers: &[u32], number: u32) -> bool
    ensures { result ≡ is_among numbers.now number }
{
    numbers.iter().any(|one| number == *one)
}

// Removes the routes to the peers with these numbers.
pub(crate) fn drop_routes_of(routes: &mut Vec<(Prefix, u32)>, gone: &NumberSet)
    ensures { routes.new.items ≡ filter (λ r. not (is_among gone.now r.1)) routes.old.items }
{
    routes.retain(|route| !gone.contains(route.1));
}

// Removes the routes of these prefixes.
pub(crate) fn drop_each(routes: &mut Vec<(Prefix, u32)>, prefixes: &[Prefix])
    requires { AreOrdered routes.old.items }
    ensures { routes.new.items ≡ without_routes routes.old.items prefixes.now }
{
    for prefix in prefixes {
        drop_route(routes, prefix);
    }
}
