//! A network that is changed in place, together with the change that leads to it.
ghost use Rattle.std.specs.Prelude.{◌≡◌, ◌<◌, ◌≤◌, ◌+◌, ◌++◌, [], ◌∷◌, true, is_some, length, slice_index_or, Some, IfOk, OnOk, OnErr};
ghost use Rattle.wgr_peers.specs.Peers.{AreNumbered, peer_of, put_peer};
ghost use Rattle.wgr_peers.specs.declared.peer.Peer.{Peer};
ghost use Rattle.wgr_peers.specs.Routes.{AreOrdered, assign_route};
ghost use Rattle.wgr_core.specs.Adoption.{give_all, other_prefixes};
ghost use Rattle.wgr_core.specs.Refusals.{route_refusal, unless_refused};
ghost use Rattle.wgr_core.specs.Change.{assign_routes, changed};
ghost use Rattle.wgr_core.specs.Draft.{DraftValue, IsGrown, MeetsGiven, altered, drafted, left_by, same_status, was_there};
ghost use Rattle.wgr_core.specs.Network.{IsNetwork};
ghost use Rattle.wgr_peers.specs.Limits.{max_number};

use crate::change::Change;
use crate::fault::AdoptFault;
use crate::forms::prefix_has_form;
use crate::network::Network;
use std::alloc::{AllocError, Global};
use std::marker::Model;
use wgr_peers::order::is_same;
use wgr_peers::{Items, Peer, PeerDraft, RouteSlots, Status};
use wgr_text::{Addr, Prefix};

/// A copy of a network's peers and routes, and the change that leads to it from the network. If
/// memory runs out, a step leaves it unchanged.
#[derive(Drop)]
pub(crate) struct Draft<'a> {
    pub(crate) start: &'a Network,
    // Those of the start at their places, and after them the added ones.
    pub(crate) peers: PeerDraft,
    pub(crate) routes: RouteSlots,
    // The routes that were put, in that order.
    routes_put: Vec<(Prefix, u32)>,
    next: u32,
}

impl<'a> Model for Draft<'a> {
    ghost Value = { DraftValue };

    ghost view = { λ d. record { start = d.start.now; network = drafted d.start.now d.peers d.routes d.next } };

    ghost invariant = { λ d. IsGrown d.start.now (drafted d.start.now d.peers d.routes d.next) d.routes_put.items };
}

impl<'a> Draft<'a> {
    // The network as it is, with room for routes of these prefixes.
    pub(crate) fn begin(
        alloc: Global,
        start: &'a Network,
        expected: Vec<Prefix>,
    ) -> Result<Draft<'a>, AllocError>
        ensures { IfOk result (λ draft. draft ≡ record { start = start.now; network = start.now }) }
    {
        let next = start.next();
        let routes = RouteSlots::new(alloc, start.routes(), expected)?;
        let peers = PeerDraft::from_slice(alloc, start.peers())?;
        Ok(Draft {
            start,
            peers,
            routes,
            routes_put: Vec::new(alloc),
            next,
        })
    }

    // Does nothing. Its contract says that the network as it is now keeps the rules of a network.
    pub(crate) fn rules_hold(&self)
        ensures { IsNetwork self.now.network }
    {
        let _next = self.next;
    }

    // The peers as they are now.
    pub(crate) fn peers(&self) -> &PeerDraft
        ensures { result.now ≡ self.now.network.peers }
    {
        &self.peers
    }

    // The number that the next peer gets.
    pub(crate) fn next(&self) -> u32
        ensures value { result ≡ self.now.network.next }
        ensures rules { IsNetwork self.now.network }
    {
        self.next
    }

    // Adds a peer with the next number.
    pub(crate) fn join(&mut self, peer: Peer) -> Result<(), AllocError>
        requires next { peer.number ≡ self.old.network.next }
        requires left { self.old.network.next ≤ max_number }
        requires fits { IsNetwork (record self.old.network { next = self.old.network.next + 1; peers = self.old.network.peers ++ peer ∷ [] }) }
        ensures ok { OnOk result (self.new ≡ record self.old { network = record self.old.network { next = self.old.network.next + 1; peers = self.old.network.peers ++ peer ∷ [] } }) }
        ensures err { OnErr result (self.new ≡ self.old) }
    {
        let next = peer.number + 1;
        self.peers.push(peer)?;
        self.next = next;
        Ok(())
    }

    // The peer at the place gets this status, and nothing else.
    pub(crate) fn note(&mut self, place: usize, status: Status) -> Result<(), AllocError>
        requires within { place < length self.old.network.peers }
        ensures ok { OnOk result ((d : Peer) → self.new ≡ record self.old { network = record self.old.network { peers = put_peer self.old.network.peers (record (slice_index_or self.old.network.peers place d) { status = Some status }) } }) }
        ensures err { OnErr result (self.new ≡ self.old) }
    {
        self.rules_hold();
        let mut peer = self.peers.as_slice()[place].copy()?;
        peer.status = Some(status);
        self.peers.replace(place, peer);
        Ok(())
    }

    // Leads a prefix to the peer with this number.
    fn assign_route(&mut self, prefix: Prefix, number: u32) -> Result<(), AllocError>
        requires { IsNetwork (record self.old.network { routes = assign_route self.old.network.routes prefix number }) }
        ensures ok { OnOk result (self.new ≡ record self.old { network = record self.old.network { routes = assign_route self.old.network.routes prefix number } }) }
        ensures err { OnErr result (self.new ≡ self.old) }
    {
        self.routes_put.reserve(1)?;
        self.routes.put(prefix, number)?;
        self.routes_put.push_reserved((prefix, number));
        Ok(())
    }

    // Leads a prefix to the peer with this number, where it can be a route.
    fn give(&mut self, prefix: Prefix, number: u32) -> Result<(), AdoptFault>
        requires { is_some (peer_of self.old.network.peers number) ≡ true }
        ensures { MeetsGiven self.old (left_by result self.new) (unless_refused (route_refusal self.old.network prefix) (record self.old.network { routes = assign_route self.old.network.routes prefix number })) }
    {
        self.rules_hold();
        if let Some(why) = self.route_refusal(&prefix) {
            return Err(AdoptFault::Refused(why));
        }
        prefix_has_form(&prefix);
        self.assign_route(prefix, number)?;
        Ok(())
    }

    // Leads the prefixes, except the address of the peer with this number, to that peer.
    pub(crate) fn give_all(
        &mut self,
        number: u32,
        address: Addr,
        allowed: &[Prefix],
    ) -> Result<(), AdoptFault>
        requires { is_some (peer_of self.old.network.peers number) ≡ true }
        ensures { MeetsGiven self.old (left_by result self.new) (give_all self.old.network number (other_prefixes address allowed.now)) }
    {
        let own = Prefix::full(address);
        for prefix in allowed {
            if is_same(prefix, &own) {
                continue;
            }
            self.give(*prefix, number)?;
        }
        Ok(())
    }

    // The change that leads from the network as it was, from which `removed` were removed, to what
    // it is now. It puts the peers that aren't as they were, by number, and no others.
    pub(crate) fn into_change(
        self,
        alloc: Global,
        removed: Items<u32>,
    ) -> Result<Change, AllocError>
        ensures removed { IfOk result (λ change. change.removed ≡ removed) }
        ensures leads { IfOk result (λ change. changed change self.entry.start ≡ self.entry.network) }
        ensures altered { IfOk result (λ change. change.peers ≡ altered self.entry.start.peers self.entry.network.peers) }
        ensures rising { IfOk result (λ change. AreNumbered change.peers) }
    {
        let peers = altered(alloc, self.start.peers(), self.peers.as_slice())?;
        let routes_put = each_once(self.start.routes(), self.routes, self.routes_put);
        Ok(Change {
            removed,
            peers: Items::of(peers),
            routes_put: Items::of(routes_put),
            routes_gone: Items::new(alloc),
            next: self.next,
        })
    }
}

// Those of the peers that aren't as they were at the start, where each had the same place.
fn altered(alloc: Global, start: &[Peer], peers: &[Peer]) -> Result<Vec<Peer>, AllocError>
    ensures { IfOk result (λ those. those.items ≡ altered start.now peers.now) }
{
    let mut those = Vec::new(alloc);
    for (place, peer) in peers.iter().enumerate() {
        if !was_there(start, place, peer) {
            those.push(peer.copy()?)?;
        }
    }
    Ok(those)
}

// Whether the peer had its status at this place of the start.
fn was_there(start: &[Peer], place: usize, peer: &Peer) -> bool
    ensures { result ≡ was_there start.now place peer.now }
{
    place < start.len() && is_same_status(&start[place].status, &peer.status)
}

// Whether both show the same, or nothing.
fn is_same_status(one: &Option<Status>, other: &Option<Status>) -> bool
    ensures { result ≡ same_status one.now other.now }
{
    one == other
}

// Of routes that were put one after the other, those that have an effect. A prefix may have
// been led to one peer after another; where there was no route before, each is put once.
fn each_once(
    start: &[(Prefix, u32)],
    routes: RouteSlots,
    puts: Vec<(Prefix, u32)>,
) -> Vec<(Prefix, u32)>
    requires leads { assign_routes start.now puts.items ≡ routes }
    requires ordered { AreOrdered routes }
    ensures { assign_routes start.now result.items ≡ routes }
{
    if start.is_empty() {
        routes.into_routes()
    } else {
        puts
    }
}
